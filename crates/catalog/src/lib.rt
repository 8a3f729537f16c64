// The catalog log over page's promises: the state and the log, refusal 1, the sound check, recovery and the lookup.
#![tactic(auto)]

mod bounds;
mod checking;
mod log;
mod recovery;
mod searching;
mod state;

pub use bounds::{is_bad_cursor, is_bad_state};
pub use checking::check;
pub use log::Log;
pub use recovery::{Recovered, recover};
pub use searching::Look;
pub use state::{State, Taken};
