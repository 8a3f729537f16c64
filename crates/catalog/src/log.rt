// A log: a store, and the state that says how much of it is the log.
ghost use Rattle.std.specs.Prelude.{◌≡◌};
ghost use Rattle.catalog.specs.Bounds.{log_of, paper_bytes};

use crate::bounds;
use crate::state::State;
use refusal::Refusal;

// A store and its state. Neither printed nor compared.
#[derive(Clone, Copy)]
pub struct Log<'a> {
    pub store: &'a [u8],
    pub state: State,
}

impl<'a> Log<'a> {
    // The log's bytes, the first of the store.
    #[tactic(auto, unfolding(crate::specs::Bounds::log_of, crate::specs::Bounds::bad_state, crate::specs::Bounds::too_long))]
    pub fn bytes(self) -> Result<&'a [u8], Refusal>
        ensures { paper_bytes result ≡ log_of self.entry.store.now self.entry.state }
    {
        if bounds::is_bad_state(self.store, self.state.length) {
            return Err(Refusal::BadState);
        }
        Ok(&self.store[..self.state.length as usize])
    }
}
