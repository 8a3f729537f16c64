// The state in numbers, taking an id and raising the ceiling. Refusals, kinds and flags are numbers here: the structs are C's.
ghost use Rattle.std.specs.Prelude.{◌≡◌};
ghost use Rattle.catalog.specs.State.{fresh, take_of, paper_taken};
ghost use Rattle.catalog.specs.Raise.{raise_of, paper_raised};
ghost use Rattle.awirbesh.specs.State.{state_from, state_numbers, taken_numbers, raised_numbers};

use catalog::{State, Taken};
use refusal::Refusal;

#[repr(C)]
#[derive(Clone, Copy, Default)]
pub struct StateNumbers {
    pub length: u64,
    pub last: u64,
    pub next: u64,
    pub ceiling: u64,
}

#[repr(C)]
#[derive(Clone, Copy)]
pub struct TakenNumbers {
    pub number: u64,
    pub id: u64,
    pub state: StateNumbers,
}

#[repr(C)]
#[derive(Clone, Copy)]
pub struct RaisedNumbers {
    pub number: u64,
    pub state: StateNumbers,
}

impl From<StateNumbers> for State {
    ghost from_gives = { λ n s. s ≡ state_from n };

    fn from(numbers: StateNumbers) -> Self {
        Self {
            length: numbers.length,
            last: numbers.last,
            next: numbers.next,
            ceiling: numbers.ceiling,
        }
    }
}

impl From<State> for StateNumbers {
    ghost from_gives = { λ s n. n ≡ state_numbers s };

    fn from(state: State) -> Self {
        Self {
            length: state.length,
            last: state.last,
            next: state.next,
            ceiling: state.ceiling,
        }
    }
}

impl TakenNumbers {
    // A refusal leaves the state as it was given, so this takes two values and is no `From`.
    fn new(given: StateNumbers, taken: Result<Taken, Refusal>) -> Self
        ensures { result ≡ taken_numbers given (paper_taken taken) }
    {
        match taken {
            Ok(Taken { id, state }) => Self {
                number: 0,
                id,
                state: state.into(),
            },
            Err(refusal) => Self {
                number: refusal.number(),
                id: 0,
                state: given,
            },
        }
    }
}

impl RaisedNumbers {
    // A refusal leaves the state as it was before, so this takes two values and is no `From`.
    fn new(before: StateNumbers, raised: Result<State, Refusal>) -> Self
        ensures { result ≡ raised_numbers before (paper_raised raised) }
    {
        match raised {
            Ok(state) => Self {
                number: 0,
                state: state.into(),
            },
            Err(refusal) => Self {
                number: refusal.number(),
                state: before,
            },
        }
    }
}

#[unsafe(no_mangle)]
pub extern "C" fn awirbesh_fresh() -> StateNumbers
    ensures { result ≡ state_numbers fresh }
{
    State::fresh().into()
}

#[unsafe(no_mangle)]
pub extern "C" fn awirbesh_take(state: StateNumbers) -> TakenNumbers
    ensures { result ≡ taken_numbers state (take_of (state_from state)) }
{
    TakenNumbers::new(state, State::from(state).take())
}

#[unsafe(no_mangle)]
pub extern "C" fn awirbesh_raise(state: StateNumbers, step: u64) -> RaisedNumbers
    ensures { result ≡ raised_numbers state (raise_of (state_from state) step) }
{
    RaisedNumbers::new(state, State::from(state).raise(step))
}
