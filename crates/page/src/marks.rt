// Byte 0 of a page.
ghost use Rattle.std.specs.Prelude.{◌≡◌};
ghost use Rattle.page.specs.Mark.{mark_at, mark_of};

use crate::Page;
use refusal::Refusal;

// 1 starts an entry, 0 does not, and no other mark is good.
#[derive(Clone, Copy, Debug, PartialEq, Eq)]
pub enum Mark {
    Start,
    Later,
}

impl Page<'_> {
    // The page's mark; refusal 5 if it is bad.
    #[tactic(auto, using(crate::proofs::Marking::read_start, crate::proofs::Marking::read_later, crate::proofs::Marking::read_bad))]
    pub fn mark(self) -> Result<Mark, Refusal>
        ensures { result ≡ mark_of self.entry.number (mark_at self.entry.log.now self.entry.number) }
    {
        let at = self.number * Page::SIZE;
        match self.log[at] {
            1 => Ok(Mark::Start),
            0 => Ok(Mark::Later),
            _ => Err(Refusal::BadMark {
                page: self.number as u64,
            }),
        }
    }
}
