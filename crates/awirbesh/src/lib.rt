// The functions that C and Rust call: each is a call of the library, with the numbers of its answer.
// include/awirbesh.h documents them. Five of its structs begin with a number and a value, and each says both: C has no common part of
// structs. Only C reads them, so they are neither printed nor compared.
#![tactic(auto)]

mod checking;
mod reading;
mod sequences;
mod state;
mod writing;

pub use checking::{CheckedNumbers, RecoveredNumbers};
pub use reading::{EndNumbers, LookNumbers, RangeNumbers, StartedNumbers, SteppedNumbers};
pub use sequences::{NotedNumbers, SequenceNumbers};
pub use state::{RaisedNumbers, StateNumbers, TakenNumbers};
pub use writing::PushedNumbers;
