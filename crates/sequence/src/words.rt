// The bits of the lent words: bit k % 64 of word k / 64 is for the id start + k.
ghost use Rattle.std.specs.Prelude.{◌≡◌, ◌-◌, ◌%◌, ◌^◌, ◌≤◌, min};
ghost use Rattle.sequence.specs.Window.{marked, all_noted, only, shifted};

// The word with the bit of an offset set.
pub(crate) fn mark(word: u64, offset: u64) -> u64
    ensures { result ≡ marked word (offset % 64) }
{
    word | (1 << (offset % 64))
}

// A word whose first n bits are set, all 64 if n is more.
fn mask(n: u64) -> u64
    ensures { result ≡ 2 ^ min 64 n - 1 }
{
    if n < 64 { (1 << n) - 1 } else { u64::MAX }
}

// Whether the first n bits of a word are set, all 64 if n is more.
pub(crate) fn all_noted(word: u64, n: u64) -> bool
    ensures { result ≡ all_noted word (min 64 n) }
{
    let m = mask(n);
    word & m == m
}

// Clears the bits from an offset on, in the first words alone.
pub(crate) fn forget(words: &mut [u64; 64], from: u64, count: usize)
    requires { count ≤ 64 }
    ensures { words.new ≡ only from count words.old }
{
    let first = (from / 64) as usize;
    // carried and not made of i: after the first word no bit stays, so that the rest is cleared at once
    let mut bits = from % 64;
    for i in first..count {
        words[i] &= mask(bits);
        bits = 0;
    }
}

// Moves the words down by one; a zero comes in at the end.
#[tactic(auto, using(crate::proofs::Shifting::turned))]
pub(crate) fn shift(words: &mut [u64; 64])
    ensures { words.new ≡ shifted words.old }
{
    words[0] = 0;
    words.rotate_left(1);
}
