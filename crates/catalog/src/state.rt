// The state: how long the log is, the id written last, the id to hand out next, and the ceiling of those handed out.
ghost use Rattle.std.specs.Prelude.{◌≡◌, ◌<◌, ◌+◌, ◌^◌};
ghost use Rattle.catalog.specs.State.{fresh, recovered_at, resumed_above, moved_to, take_of, paper_taken};
ghost use Rattle.catalog.specs.Raise.{bad_step, raise_of, paper_raised};

use refusal::Refusal;

#[derive(Clone, Copy, Debug, PartialEq, Eq)]
pub struct State {
    pub length: u64,
    pub last: u64,
    pub next: u64,
    pub ceiling: u64,
}

// An id handed out, with the state after it.
#[derive(Clone, Copy, Debug, PartialEq, Eq)]
pub struct Taken {
    pub id: u64,
    pub state: State,
}

// The id that is never handed out, and the highest ceiling.
pub(crate) const TOP_ID: u64 = 0xffff_ffff_ffff_ffff;

// The most by which a ceiling is raised.
const MOST_RAISED: u64 = 0x1_0000_0000;

// The step is 0 or too large, or the ceiling cannot grow by it.
#[tactic(auto, unfolding(crate::specs::Raise::bad_step))]
fn is_bad_step(ceiling: u64, step: u64) -> bool
    ensures { result ≡ bad_step ceiling step }
{
    step == 0 || MOST_RAISED < step || TOP_ID - ceiling < step
}

impl State {
    // No log yet.
    pub fn fresh() -> State
        ensures { result ≡ fresh }
    {
        State {
            length: 0,
            last: 0,
            next: 1,
            ceiling: 1,
        }
    }

    // A log of so many bytes whose last entry has this id.
    pub(crate) fn recovered(length: u64, id: u64) -> State
        requires { id + 1 < 2 ^ 64 }
        ensures { result ≡ recovered_at length id }
    {
        let next = id + 1;
        State {
            length,
            last: id,
            next,
            ceiling: next,
        }
    }

    // The state to go on with where this ceiling was stored.
    pub(crate) fn resumed_above(self, stored: u64) -> State
        ensures { result ≡ resumed_above stored self }
    {
        let next = self.next.max(stored);
        State {
            next,
            ceiling: next,
            ..self
        }
    }

    // The state with another length and another last written id.
    pub fn moved(self, length: u64, last: u64) -> State
        ensures { result ≡ moved_to self length last }
    {
        State {
            length,
            last,
            ..self
        }
    }

    // Hands out the next id; a refusal changes nothing.
    #[tactic(auto, unfolding(crate::specs::State::take_of))]
    pub fn take(self) -> Result<Taken, Refusal>
        ensures { paper_taken result ≡ take_of self }
    {
        if self.next == TOP_ID {
            return Err(Refusal::IdsUsedUp);
        }
        if self.next >= self.ceiling {
            return Err(Refusal::CeilingReached);
        }
        Ok(Taken {
            id: self.next,
            state: State {
                next: self.next + 1,
                ..self
            },
        })
    }

    // Raises the ceiling by a step, to be stored before it is used; a refusal changes nothing.
    #[tactic(auto, unfolding(crate::specs::Raise::raise_of, crate::specs::Raise::bad_step))]
    pub fn raise(self, step: u64) -> Result<State, Refusal>
        ensures { paper_raised result ≡ raise_of self step }
    {
        if is_bad_step(self.ceiling, step) {
            return Err(Refusal::BadRaise);
        }
        Ok(State {
            ceiling: self.ceiling + step,
            ..self
        })
    }
}
