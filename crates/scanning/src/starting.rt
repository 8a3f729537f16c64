// Where a scan starts.
ghost use Rattle.std.specs.Prelude.{◌≡◌};
ghost use Rattle.catalog.specs.Lookup.{find_of};
ghost use Rattle.scanning.specs.Scan.{from_look, scan_of, paper_started};

use crate::range::Range;
use catalog::{Log, Look};
use refusal::Refusal;
use std::ops::Bound;

// The position at which a find of the id comes out, found or absent.
fn place(log: Log<'_>, id: u64) -> Result<u64, Refusal>
    ensures { paper_started result ≡ from_look (find_of log.entry.store.now log.entry.state id) }
{
    match log.find(id)? {
        Look::Found {
            position,
            length: _,
        } => Ok(position),
        Look::Absent { position } => Ok(position),
    }
}

// The cursor of a scan's first step: 1 first, then by the lower end. Nothing is copied.
#[tactic(auto, unfolding(crate::specs::Scan::scan_of, catalog::specs::Bounds::log_of))]
pub fn scan(log: Log<'_>, range: Range) -> Result<u64, Refusal>
    ensures { paper_started result ≡ scan_of log.entry.store.now log.entry.state range }
{
    log.bytes()?;
    match range.lower {
        Bound::Unbounded => Ok(0),
        Bound::Included(id) | Bound::Excluded(id) => place(log, id),
    }
}
