// The lookup and the scan. Refusals, kinds and flags are numbers here: the structs are C's.
ghost use Rattle.std.specs.Prelude.{◌≡◌};
ghost use Rattle.catalog.specs.Lookup.{find_of, lookup_of, paper_look};
ghost use Rattle.scanning.specs.Scan.{scan_of, paper_started};
ghost use Rattle.scanning.specs.Step.{step_of, paper_stepped};
ghost use Rattle.awirbesh.specs.State.{state_from};
ghost use Rattle.awirbesh.specs.Read.{end_from, range_from, look_numbers, started_numbers, stepped_numbers};

use crate::state::StateNumbers;
use catalog::{Log, Look};
use refusal::Refusal;
use scanning::{Range, Stepped};
use std::ops::Bound;

// One end of a range: kind 1 is included, 2 is excluded, any other is open.
#[repr(C)]
#[derive(Clone, Copy)]
pub struct EndNumbers {
    pub kind: u64,
    pub id: u64,
}

#[repr(C)]
#[derive(Clone, Copy)]
pub struct RangeNumbers {
    pub lower: EndNumbers,
    pub upper: EndNumbers,
}

// found is 1 for an id that was found, 0 for an absent one.
#[repr(C)]
#[derive(Clone, Copy, Default)]
pub struct LookNumbers {
    pub number: u64,
    pub value: u64,
    pub found: u64,
    pub position: u64,
    pub length: u64,
}

#[repr(C)]
#[derive(Clone, Copy, Default)]
pub struct StartedNumbers {
    pub number: u64,
    pub value: u64,
    pub cursor: u64,
}

// kind 1 is an entry, 0 the end.
#[repr(C)]
#[derive(Clone, Copy, Default)]
pub struct SteppedNumbers {
    pub number: u64,
    pub value: u64,
    pub kind: u64,
    pub id: u64,
    pub length: u64,
    pub cursor: u64,
}

impl From<EndNumbers> for Bound<u64> {
    ghost from_gives = { λ n e. e ≡ end_from n };

    fn from(end: EndNumbers) -> Self {
        match end.kind {
            1 => Self::Included(end.id),
            2 => Self::Excluded(end.id),
            _ => Self::Unbounded,
        }
    }
}

impl From<RangeNumbers> for Range {
    ghost from_gives = { λ n r. r ≡ range_from n };

    fn from(range: RangeNumbers) -> Self {
        Self {
            lower: range.lower.into(),
            upper: range.upper.into(),
        }
    }
}

impl From<Result<Look, Refusal>> for LookNumbers {
    ghost from_gives = { λ look n. n ≡ look_numbers (paper_look look) };

    fn from(look: Result<Look, Refusal>) -> Self {
        match look {
            Ok(Look::Found { position, length }) => Self {
                found: 1,
                position,
                length,
                ..Self::default()
            },
            Ok(Look::Absent { position }) => Self {
                position,
                ..Self::default()
            },
            Err(refusal) => Self {
                number: refusal.number(),
                value: refusal.value(),
                ..Self::default()
            },
        }
    }
}

impl From<Result<u64, Refusal>> for StartedNumbers {
    ghost from_gives = { λ started n. n ≡ started_numbers (paper_started started) };

    fn from(started: Result<u64, Refusal>) -> Self {
        match started {
            Ok(cursor) => Self {
                cursor,
                ..Self::default()
            },
            Err(refusal) => Self {
                number: refusal.number(),
                value: refusal.value(),
                ..Self::default()
            },
        }
    }
}

impl SteppedNumbers {
    // A refusal leaves the cursor as it was given, so this takes two values and is no `From`.
    fn new(given: u64, stepped: Result<Stepped, Refusal>) -> Self
        ensures { result ≡ stepped_numbers given (paper_stepped stepped) }
    {
        match stepped {
            Ok(Stepped::Entry { id, length, cursor }) => Self {
                kind: 1,
                id,
                length,
                cursor,
                ..Self::default()
            },
            Ok(Stepped::End { cursor }) => Self {
                cursor,
                ..Self::default()
            },
            Err(refusal) => Self {
                number: refusal.number(),
                value: refusal.value(),
                cursor: given,
                ..Self::default()
            },
        }
    }
}

#[unsafe(no_mangle)]
pub extern "C" fn awirbesh_find(store: &[u8], state: StateNumbers, id: u64) -> LookNumbers
    ensures { result ≡ look_numbers (find_of store.now (state_from state) id) }
{
    let state = state.into();
    Log { store, state }.find(id).into()
}

#[unsafe(no_mangle)]
pub extern "C" fn awirbesh_lookup(
    store: &[u8],
    state: StateNumbers,
    id: u64,
    out: &mut [u8],
) -> LookNumbers
    ensures value { result ≡ look_numbers (lookup_of store.now (state_from state) id out.old).answer }
    ensures out_after { out.new ≡ (lookup_of store.now (state_from state) id out.old).out }
{
    let state = state.into();
    Log { store, state }.lookup(id, out).into()
}

#[unsafe(no_mangle)]
pub extern "C" fn awirbesh_scan(
    store: &[u8],
    state: StateNumbers,
    range: RangeNumbers,
) -> StartedNumbers
    ensures { result ≡ started_numbers (scan_of store.now (state_from state) (range_from range)) }
{
    let state = state.into();
    scanning::scan(Log { store, state }, range.into()).into()
}

#[unsafe(no_mangle)]
pub extern "C" fn awirbesh_step(
    store: &[u8],
    state: StateNumbers,
    range: RangeNumbers,
    cursor: u64,
    out: &mut [u8],
) -> SteppedNumbers
    ensures value { result ≡ stepped_numbers cursor (step_of store.now (state_from state) (range_from range) cursor out.old).answer }
    ensures out_after { out.new ≡ (step_of store.now (state_from state) (range_from range) cursor out.old).out }
{
    let state = state.into();
    let stepped = scanning::step(Log { store, state }, range.into(), cursor, out);
    SteppedNumbers::new(cursor, stepped)
}
