// The lookup: found or absent, by interpolation over pages.
ghost use Rattle.std.specs.Prelude.{◌≡◌, ◌≤◌, ◌<◌, ◌^◌, length};
ghost use Rattle.page.specs.Size.{page_count};
ghost use Rattle.page.specs.Entry.{entry_at};
ghost use Rattle.catalog.specs.Guess.{offset_of};
ghost use Rattle.catalog.specs.Output.{with_output};
ghost use Rattle.catalog.specs.Lookup.{compared, saying_at, search_of, find_of, lookup_of, paper_look};
ghost use Rattle.catalog.specs.Private.{paper_says};

use crate::log::Log;
use page::{Mark, Page};
use refusal::Refusal;
use std::cmp::Ordering;

// Found with its data length, or absent where it would stand.
#[derive(Clone, Copy, Debug, PartialEq, Eq)]
pub enum Look {
    Found { position: u64, length: u64 },
    Absent { position: u64 },
}

// What a page says to the walk back: the id is found here, the entry here lies below or above it, or none starts here. Neither printed nor compared.
#[derive(Clone, Copy)]
enum Says {
    Found { position: u64, length: u64 },
    Below { id: u64, after: usize },
    Above { id: u64 },
    Back,
}

// How far above a window's first page the guess lies: of w pages, for an id x above the lower id, of y to the upper.
fn offset(x: u64, y: u64, w: usize) -> usize
    requires { (x < y) × (1 ≤ w) × (w ≤ 2 ^ 31) }
    ensures { result ≡ offset_of x y w }
{
    let shift = 32u32.saturating_sub(y.leading_zeros());
    let guess = (x >> shift) * (w as u64) / (y >> shift);
    guess.min((w - 1) as u64) as usize
}

// At a start: 6, 7, then its id is compared with the one looked for.
#[tactic(auto, unfolding(crate::specs::Lookup::compared))]
fn compare(page: Page<'_>, id: u64) -> Result<Says, Refusal>
    ensures { paper_says result ≡ compared id page.entry.number (entry_at page.entry.log.now page.entry.number) }
{
    let whole = page.whole()?;
    Ok(match whole.id.cmp(&id) {
        Ordering::Less => Says::Below {
            id: whole.id,
            after: whole.after,
        },
        Ordering::Equal => Says::Found {
            position: (page.number * Page::SIZE) as u64,
            length: whole.length as u64,
        },
        Ordering::Greater => Says::Above { id: whole.id },
    })
}

// What a page says to a walk back that looks for an id.
#[tactic(auto, unfolding(crate::specs::Lookup::saying_at))]
fn asked(page: Page<'_>, id: u64) -> Result<Says, Refusal>
    ensures { paper_says result ≡ saying_at page.entry.log.now id page.entry.number }
{
    match page.mark()? {
        Mark::Start => compare(page, id),
        Mark::Later => Ok(Says::Back),
    }
}

// The pages from lo to below hi, and an id below and one above all of theirs. Neither printed nor compared.
#[derive(Clone, Copy)]
struct Window {
    lo: usize,
    hi: usize,
    a: u64,
    b: u64,
}

// The rounds: guess a page of the window, walk back to a start, and keep the side of it that may hold the id.
// A `loop`, and no `?`: a labelled break leaves both loops with the answer, on found or on a fault, as it was asked for.
fn search(log: &[u8], next: u64, id: u64) -> Result<Look, Refusal>
    requires { (1 ≤ id) × (id < next) × (length log.now ≤ 2 ^ 31) }
    ensures { paper_look result ≡ search_of log.now next id }
{
    let mut w = Window {
        lo: 0,
        hi: Page::count(log),
        a: 0,
        b: next,
    };
    'window: loop {
        if w.hi <= w.lo {
            break Ok(Look::Absent {
                position: (w.hi * Page::SIZE) as u64,
            });
        }
        let guess = w.lo + offset(id - w.a, w.b - w.a, w.hi - w.lo);
        let past = guess + 1;
        for s in (w.lo..past).rev() {
            match asked(Page { log, number: s }, id) {
                Ok(Says::Found { position, length }) => {
                    break 'window Ok(Look::Found { position, length });
                }
                Ok(Says::Below { id: a, after }) => {
                    w = Window {
                        lo: after.max(past),
                        a,
                        ..w
                    };
                    continue 'window;
                }
                Ok(Says::Above { id: b }) => {
                    w = Window { hi: s, b, ..w };
                    continue 'window;
                }
                Ok(Says::Back) => {}
                Err(refusal) => break 'window Err(refusal),
            }
        }
        w = Window { lo: past, ..w };
    }
}

// Where an id stands in a log's bytes: 0 and an id from next on are absent, any other is searched for.
#[tactic(auto, unfolding(crate::specs::Lookup::search_of))]
fn seek(log: &[u8], next: u64, id: u64) -> Result<Look, Refusal>
    requires { length log.now ≤ 2 ^ 31 }
    ensures { paper_look result ≡ search_of log.now next id }
{
    if id == 0 {
        return Ok(Look::Absent { position: 0 });
    }
    if next <= id {
        return Ok(Look::Absent {
            position: log.len() as u64,
        });
    }
    search(log, next, id)
}

impl Log<'_> {
    // Where an id stands in the log, with nothing copied.
    #[tactic(auto, unfolding(crate::specs::Lookup::find_of, crate::specs::Bounds::log_of))]
    pub fn find(self, id: u64) -> Result<Look, Refusal>
        ensures { paper_look result ≡ find_of self.entry.store.now self.entry.state id }
    {
        let log = self.bytes()?;
        seek(log, self.state.next, id)
    }

    // Finds an id, and copies its data to the front of `out`.
    #[tactic(auto, unfolding(crate::specs::Lookup::lookup_of, crate::specs::Lookup::hand_found, crate::specs::Lookup::find_of, crate::specs::Bounds::log_of))]
    pub fn lookup(self, id: u64, out: &mut [u8]) -> Result<Look, Refusal>
        ensures { with_output (paper_look result) out.new ≡ lookup_of self.entry.store.now self.entry.state id out.old }
    {
        let log = self.bytes()?;
        let look = seek(log, self.state.next, id)?;
        if let Look::Found { position, length } = look {
            if (out.len() as u64) < length {
                return Err(Refusal::BufferSmall { needed: length });
            }
            let s = (position as usize) / Page::SIZE;
            Page { log, number: s }.copy_data(&mut out[..length as usize]);
        }
        Ok(look)
    }
}
