// A step of a scan: forward to an entry of the range, which is handed over.
ghost use Rattle.std.specs.Prelude.{◌≡◌};
ghost use Rattle.page.specs.Entry.{entry_at};
ghost use Rattle.catalog.specs.Output.{with_output};
ghost use Rattle.scanning.specs.Step.{step_start, step_page, forward_from, advance_of, step_of, paper_stepped};
ghost use Rattle.scanning.specs.Private.{paper_met, paper_seen};

use crate::range::Range;
use catalog::Log;
use page::{Mark, Page, Whole};
use refusal::Refusal;
use std::ops::ControlFlow;

// An entry of the range and the page at which it starts, with nothing copied yet. Neither printed nor compared.
#[derive(Clone, Copy)]
struct Met {
    page: usize,
    entry: Whole,
}

impl Range {
    // A start: 6, 7, then its entry if its id is in the range, or on to the page after it.
    #[tactic(auto, unfolding(crate::specs::Step::step_start))]
    fn see_start(self, page: Page<'_>) -> Result<ControlFlow<Met, usize>, Refusal>
        ensures { paper_seen result ≡ step_start self page.entry.number (entry_at page.entry.log.now page.entry.number) }
    {
        let entry = page.whole()?;
        if self.holds(entry.id) {
            return Ok(ControlFlow::Break(Met {
                page: page.number,
                entry,
            }));
        }
        Ok(ControlFlow::Continue(entry.after))
    }

    // One page: 5, a start, or on to the next.
    #[tactic(auto, unfolding(crate::specs::Step::step_page))]
    fn see_page(self, page: Page<'_>) -> Result<ControlFlow<Met, usize>, Refusal>
        ensures { paper_seen result ≡ step_page page.entry.log.now self page.entry.number }
    {
        match page.mark()? {
            Mark::Start => self.see_start(page),
            Mark::Later => Ok(ControlFlow::Continue(page.number + 1)),
        }
    }
}

// A log, and the range whose entries a step looks for in it. Neither printed nor compared.
#[derive(Clone, Copy)]
struct Walk<'a> {
    log: &'a [u8],
    range: Range,
}

impl Walk<'_> {
    // From a page on to the first entry of the range; none where the log ends first. A `while`: an entry is passed with all its pages.
    #[tactic(auto, using(crate::proofs::Laws::Forward::forward_turn))]
    fn forward(self, from: usize) -> Result<Option<Met>, Refusal>
        ensures { paper_met self.entry.log.now result ≡ forward_from self.entry.log.now self.entry.range from }
    {
        let pages = Page::count(self.log);
        let mut p = from;
        while p < pages {
            let page = Page {
                log: self.log,
                number: p,
            };
            match self.range.see_page(page)? {
                ControlFlow::Break(met) => return Ok(Some(met)),
                ControlFlow::Continue(next) => p = next,
            }
        }
        Ok(None)
    }

    // A step within the log: only the entry that it comes to is copied.
    #[tactic(auto, using(crate::proofs::Laws::Handing::at_entry), unfolding(crate::specs::Step::advance_of, crate::specs::Step::hand_reached))]
    fn advance(self, from: usize, out: &mut [u8]) -> Result<Stepped, Refusal>
        ensures { with_output (paper_stepped result) out.new ≡ advance_of self.entry.log.now self.entry.range from out.old }
    {
        let Some(Met { page, entry }) = self.forward(from)? else {
            return Ok(Stepped::End {
                cursor: self.log.len() as u64,
            });
        };
        let length = entry.length;
        if out.len() < length {
            return Err(Refusal::BufferSmall {
                needed: length as u64,
            });
        }
        let start = Page {
            log: self.log,
            number: page,
        };
        start.copy_data(&mut out[..length]);
        Ok(Stepped::Entry {
            id: entry.id,
            length: length as u64,
            cursor: (entry.after * Page::SIZE) as u64,
        })
    }
}

// An entry of the range handed over, or the end.
#[derive(Clone, Copy, Debug, PartialEq, Eq)]
pub enum Stepped {
    Entry { id: u64, length: u64, cursor: u64 },
    End { cursor: u64 },
}

// One step from a cursor. A refusal leaves the output as it was, and the caller keeps its cursor.
#[tactic(auto, unfolding(crate::specs::Step::step_of, catalog::specs::Bounds::log_of))]
pub fn step(log: Log<'_>, range: Range, cursor: u64, out: &mut [u8]) -> Result<Stepped, Refusal>
    ensures { with_output (paper_stepped result) out.new ≡ step_of log.entry.store.now log.entry.state range cursor out.old }
{
    let bytes = log.bytes()?;
    if catalog::is_bad_cursor(log.state.length, cursor) {
        return Err(Refusal::BadState);
    }
    Walk { log: bytes, range }.advance(cursor as usize / Page::SIZE, out)
}
