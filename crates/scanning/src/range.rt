// A range of ids, and which ids are in it.
ghost use Rattle.std.specs.Prelude.{◌≡◌};
ghost use Rattle.scanning.specs.Range.{holds_of};

use std::ops::{Bound, RangeBounds};

// The ids between two ends; an open end is `Unbounded`.
#[derive(Clone, Copy, Debug, PartialEq, Eq)]
pub struct Range {
    pub lower: Bound<u64>,
    pub upper: Bound<u64>,
}

impl Range {
    // The id is in the range.
    #[tactic(auto, unfolding(crate::specs::Range::holds_of))]
    pub(crate) fn holds(self, id: u64) -> bool
        ensures { result ≡ holds_of self id }
    {
        (self.lower, self.upper).contains(&id)
    }
}
