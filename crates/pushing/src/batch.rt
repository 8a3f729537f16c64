// A batch that passed refusal 13, so that its ends divide its data.
ghost use Rattle.std.specs.Prelude.{◌≡◌, ℕ, ◌<◌, true, false, length, get_or, MatchBool, MatchResult};
ghost use Rattle.pushing.specs.Push.{before, bad_batch, some_large};

use page::Page;
use refusal::Refusal;

// The ids, where each entry's data ends, and the data. Neither printed nor compared.
#[derive(Clone, Copy)]
pub(crate) struct Batch<'a> {
    pub(crate) ids: &'a [u64],
    pub(crate) ends: &'a [u64],
    pub(crate) bytes: &'a [u8],
    ghost good: { bad_batch ids.now ends.now bytes.now ≡ false },
}

// Whether the test holds of where some entry's data begins and ends.
fn is_some_span<F: Fn(u64, u64) -> bool>(ends: &[u64], test: F) -> bool
    requires { F.IsAlwaysCallable test }
    ensures { MatchBool result
        ((j : ℕ) × (j < length ends.now) × F.post test (before ends.now j) (get_or ends.now j 0) true)
        ((j : ℕ) → j < length ends.now → F.post test (before ends.now j) (get_or ends.now j 0) false) }
{
    let mut from = 0;
    for &end in ends {
        if test(from, end) {
            return true;
        }
        from = end;
    }
    false
}

impl<'a> Batch<'a> {
    // Refusal 13: the counts differ, the ends fall, or an end is beyond the data.
    pub(crate) fn new(
        ids: &'a [u64],
        ends: &'a [u64],
        bytes: &'a [u8],
    ) -> Result<Batch<'a>, Refusal>
        ensures { MatchResult result
            (λ batch. (batch.ids ≡ ids.entry) × (batch.ends ≡ ends.entry) × (batch.bytes ≡ bytes.entry))
            (λ refusal. (refusal ≡ Refusal.BadBatch) × (bad_batch ids.now ends.now bytes.now ≡ true)) }
    {
        let size = bytes.len() as u64;
        if ids.len() != ends.len() || is_some_span(ends, |from, end| end < from || size < end) {
            return Err(Refusal::BadBatch);
        }
        Ok(Batch { ids, ends, bytes })
    }

    // Refusal 16: some data is too long for an entry.
    pub(crate) fn has_large(self) -> bool
        ensures { result ≡ some_large self.entry.ends.now self.entry.bytes.now }
    {
        is_some_span(
            self.ends,
            |from, end| (Page::DATA_END as u64) < end.saturating_sub(from),
        )
    }
}
