// A log as it is found: the sound check and recovery. Refusals, kinds and flags are numbers here: the structs are C's.
ghost use Rattle.std.specs.Prelude.{◌≡◌};
ghost use Rattle.catalog.specs.Check.{check_of, paper_checked};
ghost use Rattle.catalog.specs.Recovery.{recover_of, paper_recovered};
ghost use Rattle.awirbesh.specs.Check.{checked_numbers, recovered_numbers};

use crate::state::StateNumbers;
use catalog::Recovered;
use refusal::Refusal;

#[repr(C)]
#[derive(Clone, Copy, Default)]
pub struct CheckedNumbers {
    pub number: u64,
    pub value: u64,
}

#[repr(C)]
#[derive(Clone, Copy, Default)]
pub struct RecoveredNumbers {
    pub number: u64,
    pub value: u64,
    pub excess: u64,
    pub dropped: u64,
    pub state: StateNumbers,
}

impl From<Result<(), Refusal>> for CheckedNumbers {
    ghost from_gives = { λ checked n. n ≡ checked_numbers (paper_checked checked) };

    fn from(checked: Result<(), Refusal>) -> Self {
        match checked {
            Ok(()) => Self::default(),
            Err(refusal) => Self {
                number: refusal.number(),
                value: refusal.value(),
            },
        }
    }
}

impl From<Result<Recovered, Refusal>> for RecoveredNumbers {
    ghost from_gives = { λ recovered n. n ≡ recovered_numbers (paper_recovered recovered) };

    fn from(recovered: Result<Recovered, Refusal>) -> Self {
        match recovered {
            Ok(recovered) => Self {
                excess: recovered.excess,
                dropped: recovered.dropped,
                state: recovered.state.into(),
                ..Self::default()
            },
            Err(refusal) => Self {
                number: refusal.number(),
                value: refusal.value(),
                ..Self::default()
            },
        }
    }
}

#[unsafe(no_mangle)]
pub extern "C" fn awirbesh_check(store: &[u8], length: u64) -> CheckedNumbers
    ensures { result ≡ checked_numbers (check_of store.now length) }
{
    catalog::check(store, length).into()
}

#[unsafe(no_mangle)]
pub extern "C" fn awirbesh_recover(store: &[u8], length: u64, stored: u64) -> RecoveredNumbers
    ensures { result ≡ recovered_numbers (recover_of store.now length stored) }
{
    catalog::recover(store, length, stored).into()
}
