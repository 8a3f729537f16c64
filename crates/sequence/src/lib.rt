// Which of the ids from a start on have been noted, in 64 words that the caller lends.
#![tactic(auto)]

ghost use Rattle.std.specs.Prelude.{◌≡◌, ◌-◌, ◌<◌};
ghost use Rattle.sequence.specs.Sequence.{new_of, complete_of, paper_noted, note_of, truncated, truncate_of};

mod words;

use refusal::Refusal;

// The ids from start up to but not including after remain: after is one past the highest noted, so that nothing here wraps.
#[derive(Clone, Copy, Debug, PartialEq, Eq)]
pub struct IdSequence {
    pub start: u64,
    pub after: u64,
}

impl IdSequence {
    pub fn new(start: u64) -> Self
        ensures { result ≡ new_of start }
    {
        Self {
            start,
            after: start,
        }
    }

    // Notes an id. The words stay apart from the sequence: C lends them.
    #[tactic(auto, using(crate::proofs::Notes::note_below, crate::proofs::Notes::note_far, crate::proofs::Notes::note_last))]
    pub fn note(self, words: &mut [u64; 64], id: u64) -> Result<IdSequence, Refusal>
        ensures result_value { paper_noted result ≡ (note_of self words.old id).answer }
        ensures words_after { words.new ≡ (note_of self words.old id).words }
    {
        let Some(offset) = id.checked_sub(self.start) else {
            return Err(Refusal::BelowStart);
        };
        if 4096 <= offset || id == u64::MAX {
            return Err(Refusal::OutsideWindow);
        }
        let at = (offset / 64) as usize;
        // No id above the highest is noted, whatever the lent words hold.
        words::forget(words, self.remaining(), at + 1);
        words[at] = words::mark(words[at], offset);
        let noted = IdSequence {
            after: self.after.max(id + 1),
            ..self
        };
        Ok(noted.truncate(words))
    }

    // Whether none remain, that is, no id up to the highest noted is missing.
    pub fn complete(self) -> bool
        ensures { result ≡ complete_of self }
    {
        self.after <= self.start
    }

    // How many ids remain from start to the highest.
    fn remaining(self) -> u64
        ensures { result ≡ self.after - self.start }
    {
        self.after.saturating_sub(self.start)
    }

    // As long as any remain, start moves past the first 64, or however many there are, if each is noted. A `while`: it ends where a word has an id that is not.
    #[tactic(auto, using(crate::proofs::Rounds::rounds_last))]
    fn truncate(self, words: &mut [u64; 64]) -> IdSequence
        ensures start_and_words { truncated result.start words.new ≡ truncate_of self.after self.start words.old }
        ensures after_kept { result.after ≡ self.after }
    {
        let mut ids = self;
        while ids.start < ids.after {
            let left = ids.remaining();
            if !words::all_noted(words[0], left) {
                return ids;
            }
            if left <= 64 {
                return IdSequence {
                    start: ids.after,
                    ..ids
                };
            }
            words::shift(words);
            ids.start += 64;
        }
        ids
    }
}
