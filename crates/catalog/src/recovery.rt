// Recovery: the state of a log, from its last entry.
ghost use Rattle.std.specs.Prelude.{◌≡◌, ◌%◌, length};
ghost use Rattle.page.specs.Size.{page_size};
ghost use Rattle.catalog.specs.Recovery.{paper_recovered, at_whole, recover_log, recover_of};

use crate::state::State;
use crate::{bounds, state};
use page::{Entry, Mark, Page};
use refusal::Refusal;

// The state, the size of the excess that was cut off and the count of pages dropped.
#[derive(Clone, Copy, Debug, PartialEq, Eq)]
pub struct Recovered {
    pub state: State,
    pub excess: u64,
    pub dropped: u64,
}

// A log of so many bytes whose last entry, a whole one, has this id.
#[tactic(auto, unfolding(crate::specs::Recovery::at_whole))]
fn at_whole(length: u64, id: u64, excess: u64, dropped: u64) -> Result<Recovered, Refusal>
    ensures { paper_recovered result ≡ at_whole length id excess dropped }
{
    if id == state::TOP_ID {
        return Err(Refusal::IdsUsedUp);
    }
    Ok(Recovered {
        state: State::recovered(length, id),
        excess,
        dropped,
    })
}

// Walks back from the last page to a start whose entry is whole in the pages left; those from a cut one on are dropped.
fn walk_back(log: &[u8], excess: u64) -> Result<Recovered, Refusal>
    requires { length log.now % page_size ≡ 0 }
    ensures { paper_recovered result ≡ recover_log log.now excess }
{
    let pages = Page::count(log);
    let mut left = pages;
    for p in (0..pages).rev() {
        let page = Page { log, number: p };
        match page.mark()? {
            Mark::Start => {
                let start = Page {
                    log: &log[..left * Page::SIZE],
                    number: p,
                };
                match start.entry() {
                    Entry::Short => return Err(Refusal::ShortEntry { page: p as u64 }),
                    Entry::Cut { .. } => left = p,
                    Entry::Whole(whole) => {
                        let length = (left * Page::SIZE) as u64;
                        return at_whole(length, whole.id, excess, (pages - left) as u64);
                    }
                }
            }
            Mark::Later => {}
        }
    }
    if left != 0 {
        return Err(Refusal::NoEntries { page: 0 });
    }
    Ok(Recovered {
        state: State::fresh(),
        excess,
        dropped: pages as u64,
    })
}

// The state of the log in the first `length` bytes of a store, where this ceiling was stored. The length stays apart: one above the store is refused.
#[tactic(auto, unfolding(crate::specs::Recovery::recover_of, crate::specs::Bounds::too_long))]
pub fn recover(store: &[u8], length: u64, stored: u64) -> Result<Recovered, Refusal>
    ensures { paper_recovered result ≡ recover_of store.now length stored }
{
    if bounds::is_too_long(store, length) {
        return Err(Refusal::BadState);
    }
    let n = length as usize;
    let excess = n % Page::SIZE;
    let recovered = walk_back(&store[..n - excess], excess as u64)?;
    Ok(Recovered {
        state: recovered.state.resumed_above(stored),
        ..recovered
    })
}
