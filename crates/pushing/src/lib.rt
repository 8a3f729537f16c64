// The push of a batch: the tests of the whole batch, then its entries in turn.
#![tactic(auto)]

ghost use Rattle.std.specs.Prelude.{◌≡◌, ℕ, ◌≤◌, length};
ghost use Rattle.refusal.specs.Refusal.{number_of, value_of};
ghost use Rattle.pushing.specs.Push.{pushing, refused, paper_pushed, point, turn, push_of};
ghost use Rattle.pushing.specs.Private.{paper_turn, entries_of};

use batch::Batch;
use catalog::State;
use page::Page;
use refusal::Refusal;

mod batch;

// What a push answers: the refusal that ended it, if one did, the count of entries written, and the state.
#[derive(Clone, Copy, Debug, PartialEq, Eq)]
pub struct Pushed {
    pub reason: Option<Refusal>,
    pub written: u64,
    pub state: State,
}

// A push that a refusal ends.
fn refused(refusal: Refusal, written: usize, state: State) -> Pushed
    ensures { paper_pushed result ≡ pushing (refused (number_of refusal) (value_of refusal)) written state }
{
    Pushed {
        reason: Some(refusal),
        written: written as u64,
        state,
    }
}

// An entry's turn: its tests in order, then its pages. A refusal leaves the store.
fn write_in_turn(store: &mut [u8], state: State, id: u64, bytes: &[u8]) -> Result<State, Refusal>
    requires { state.length ≤ length store.old }
    ensures { (written : ℕ) → paper_turn written state store.new result ≡ turn written id bytes.now (point state store.old) }
{
    let at = state.length as usize;
    let last = state.last;
    let room = (store.len() - at) / Page::SIZE;
    let pages = Page::pages_for_data(bytes.len());
    if id <= last {
        return Err(Refusal::OutOfOrder);
    }
    if Page::DATA_END <= bytes.len() {
        return Err(Refusal::TooLarge);
    }
    if room < pages {
        return Err(Refusal::NoRoom);
    }
    page::write_entry(&mut store[at..], id, bytes);
    Ok(state.moved((at + pages * Page::SIZE) as u64, id))
}

// Writes the entries of a batch, each in turn. Store and state stay apart: each turn has a new state, and the store is lent by `&mut`, as C does.
fn write_entries(store: &mut [u8], mut state: State, batch: Batch<'_>) -> Pushed
    requires { state.length ≤ length store.old }
    ensures result_value { paper_pushed result ≡ (entries_of batch.entry (point state store.old)).answer }
    ensures store_after { store.new ≡ (entries_of batch.entry (point state store.old)).store }
{
    let mut from = 0;
    for (written, (&id, &end)) in batch.ids.iter().zip(batch.ends).enumerate() {
        let end = end as usize;
        match write_in_turn(store, state, id, &batch.bytes[from..end]) {
            Ok(after) => state = after,
            Err(refusal) => return refused(refusal, written, state),
        }
        from = end;
    }
    Pushed {
        reason: None,
        written: batch.ids.len() as u64,
        state,
    }
}

// Pushes a batch: its ids, its ends, and the buffer that the ends divide. The three are apart, as C hands them over.
pub fn push(store: &mut [u8], state: State, ids: &[u64], ends: &[u64], bytes: &[u8]) -> Pushed
    ensures result_value { paper_pushed result ≡ (push_of store.old state ids.now ends.now bytes.now).answer }
    ensures store_after { store.new ≡ (push_of store.old state ids.now ends.now bytes.now).store }
{
    if catalog::is_bad_state(store, state.length) {
        return refused(Refusal::BadState, 0, state);
    }
    match Batch::new(ids, ends, bytes) {
        Err(refusal) => refused(refusal, 0, state),
        Ok(batch) if batch.has_large() => refused(Refusal::ValueTooLarge, 0, state),
        Ok(batch) => write_entries(store, state, batch),
    }
}
