// The scan (docs/RULES.md 9): a range of ids, where a scan of it starts, and its steps forward through the log.
#![tactic(auto)]

mod range;
mod starting;
mod stepping;

pub use range::Range;
pub use starting::scan;
pub use stepping::{Stepped, step};
