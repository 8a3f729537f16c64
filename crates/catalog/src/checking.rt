// The sound check: every page in turn.
ghost use Rattle.std.specs.Prelude.{◌≡◌, ◌-◌, ◌<◌, ◌≤◌};
ghost use Rattle.page.specs.Size.{page_count};
ghost use Rattle.page.specs.Entry.{entry_at};
ghost use Rattle.catalog.specs.Check.{paper_checked, later_marks, check_start, check_page, check_log, check_of};
ghost use Rattle.catalog.specs.Private.{paper_passed};

use crate::bounds;
use page::{Mark, Page};
use refusal::Refusal;

// A page that was read has no fault: where to go on, and the last id before that page. Neither printed nor compared.
#[derive(Clone, Copy)]
struct Passed {
    page: usize,
    last: u64,
}

// The marks of the later pages of the entry with this id, from page `from` to the page after it.
fn later_marks(log: &[u8], id: u64, from: usize, after: usize) -> Result<Passed, Refusal>
    requires { (from ≤ after) × (after ≤ page_count log.now) }
    ensures { paper_passed result ≡ later_marks log.now id (after - from) from }
{
    for p in from..after {
        let page = Page { log, number: p };
        match page.mark()? {
            Mark::Start => return Err(Refusal::Overlap { page: p as u64 }),
            Mark::Later => {}
        }
    }
    Ok(Passed {
        page: after,
        last: id,
    })
}

// A page with mark 1 that is no later page of an entry.
#[tactic(auto, unfolding(crate::specs::Check::check_start))]
fn check_start(page: Page<'_>, last: u64) -> Result<Passed, Refusal>
    ensures { paper_passed result ≡ check_start page.entry.log.now page.entry.number last (entry_at page.entry.log.now page.entry.number) }
{
    let p = page.number;
    let whole = page.whole()?;
    if whole.id <= last {
        return Err(Refusal::NotAscending { page: p as u64 });
    }
    later_marks(page.log, whole.id, p + 1, whole.after)
}

// A page that is no later page of an entry.
#[tactic(auto, unfolding(crate::specs::Check::check_page))]
fn check_page(page: Page<'_>, last: u64) -> Result<Passed, Refusal>
    ensures { paper_passed result ≡ check_page page.entry.log.now page.entry.number last }
{
    match page.mark()? {
        Mark::Start => check_start(page, last),
        Mark::Later if page.number == 0 => Err(Refusal::NoEntries { page: 0 }),
        Mark::Later => Ok(Passed {
            page: page.number + 1,
            last,
        }),
    }
}

// Every whole page, then the excess. A `while`: a page that passes tells where to go on.
fn check_pages(log: &[u8]) -> Result<(), Refusal>
    ensures { paper_checked result ≡ check_log log.now }
{
    let count = Page::count(log);
    let mut p = 0;
    let mut last = 0;
    while p < count {
        let passed = check_page(Page { log, number: p }, last)?;
        p = passed.page;
        last = passed.last;
    }
    if !log.len().is_multiple_of(Page::SIZE) {
        return Err(Refusal::CutEntry { page: count as u64 });
    }
    Ok(())
}

// Whether the first `length` bytes of a store are a sound log. The length stays apart: one above the store is refused.
#[tactic(auto, unfolding(crate::specs::Check::check_of, crate::specs::Bounds::too_long))]
pub fn check(store: &[u8], length: u64) -> Result<(), Refusal>
    ensures { paper_checked result ≡ check_of store.now length }
{
    if bounds::is_too_long(store, length) {
        return Err(Refusal::BadState);
    }
    check_pages(&store[..length as usize])
}
