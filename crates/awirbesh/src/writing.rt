// The push of a batch. Refusals, kinds and flags are numbers here: the structs are C's.
ghost use Rattle.std.specs.Prelude.{◌≡◌};
ghost use Rattle.pushing.specs.Push.{push_of, paper_reason, paper_pushed};
ghost use Rattle.awirbesh.specs.State.{state_from};
ghost use Rattle.awirbesh.specs.Push.{reason_number, pushed_numbers};

use crate::state::StateNumbers;
use pushing::Pushed;
use refusal::Refusal;

#[repr(C)]
#[derive(Clone, Copy)]
pub struct PushedNumbers {
    pub number: u64,
    pub written: u64,
    pub state: StateNumbers,
}

impl From<Pushed> for PushedNumbers {
    ghost from_gives = { λ pushed n. n ≡ pushed_numbers (paper_pushed pushed) };

    fn from(pushed: Pushed) -> Self {
        Self {
            number: pushed.reason.map_or(0, Refusal::number),
            written: pushed.written,
            state: pushed.state.into(),
        }
    }
}

#[unsafe(no_mangle)]
pub extern "C" fn awirbesh_push(
    store: &mut [u8],
    state: StateNumbers,
    ids: &[u64],
    ends: &[u64],
    bytes: &[u8],
) -> PushedNumbers
    ensures value { result ≡ pushed_numbers (push_of store.old (state_from state) ids.now ends.now bytes.now).answer }
    ensures store_after { store.new ≡ (push_of store.old (state_from state) ids.now ends.now bytes.now).store }
{
    pushing::push(store, state.into(), ids, ends, bytes).into()
}
