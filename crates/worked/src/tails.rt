// The state, ids taken and ceilings raised, and the sound check and recovery of good and bad logs.
// Both are lent the store by `&`, so that no byte of it changes.
use crate::line::Line;
use crate::say::Told;
use crate::script;
use catalog::State;
use refusal::Refusal;
use std::io;

// From "byte 0 1" on, ids 1, 2 and 3 on pages 0, 1 to 2, and 3.
pub fn run(rt: &impl Print) -> io::Result<()> {
    println!(rt; "fresh: {}", Told(State::fresh()))?;
    script::run(
        rt,
        "name take from fresh
take
name the fresh state raised by 0
raise 0
name raised by 2^32 + 1
raise 4294967297
name raised by 2
raise 2
name take
take
name take
take
name take
take
name push (1, hello), and 2 is dropped
short 4096 - hello 1 - - 5 - -
name recovered with the stored ceiling 3
open 3
query 2
name raised by 1
raise 1
name take
take
name recovered with the stored ceiling 0
open 0
name raised by 1
raise 1
name take
take
name raised by 2^32
raise 4294967296
state 0 0 1 18446744073709551614
name ceiling 2^64-2, raised by 1
raise 1
state 0 0 1 18446744073709551614
name ceiling 2^64-2, raised by 2
raise 2
state 1024 7 18446744073709551614 18446744073709551615
name take of 2^64-2 below the ceiling 2^64-1
take
name take of 2^64-1
take
state 1024 7 18446744073709551615 0
name take of 2^64-1 above the ceiling 0
take
state 1024 7 9 8
name take of 9 above the ceiling 8
take
state 0 0 7 9
name no page, stored ceiling 0
open 0
name no page, stored ceiling 1
open 1
name no page, stored ceiling 2
open 2
name no page, stored ceiling 2^64-1
open 18446744073709551615
byte 0 1
byte 3 8
byte 11 1
byte 1024 1
byte 1026 3
byte 1027 253
byte 1035 2
byte 3072 1
byte 3075 13
byte 3083 3
check 0 0 an empty store
check 0 1 a length above an empty store
check 4096 4097 a length above the store
check 4096 0 no page of a store
check 4096 1000 a part page only
check 4096 4096 ids 1, 2, 3
check 4096 3072 its first two entries
check 4096 2048 the second cut by one page
byte 11 9
check 4096 1030 id 9 with length 1030
byte 11 1
byte 0 2
check 4096 4096 bad mark at page 0
check 4096 1024 bad mark at page 0, alone
byte 0 1
byte 1024 255
check 4096 4096 bad mark between entries
byte 1024 1
byte 2048 2
check 4096 4096 bad mark inside an entry
byte 2048 0
byte 3072 2
check 4096 4096 bad mark at the end
byte 3072 1
byte 0 0
check 4096 4096 page 0 with mark 0
check 4096 1024 page 0 with mark 0, alone
byte 0 1
byte 3072 0
check 4096 4096 an idle page
byte 3072 1
byte 3075 0
check 4096 4096 payload length 0
byte 3075 7
check 4096 4096 payload length 7
byte 3075 8
check 4096 4096 payload length 8
byte 3074 3
byte 3075 252
check 4096 4096 payload length 1020 on the last page
byte 3075 253
check 4096 4096 payload length 1021 on the last page
byte 3074 0
byte 3075 13
byte 2048 1
byte 2051 8
byte 2059 7
check 4096 4096 a start inside an entry
check 4096 3072 a start inside the last entry
byte 2050 4
check 4096 3072 a cut entry inside another
check 4096 3500 the same with an excess
byte 2 4
check 4096 3072 every entry cut
byte 2 0
byte 3 7
check 4096 3072 a short entry before two cut ones
byte 3 8
byte 4 255
byte 5 255
byte 6 255
byte 7 255
byte 8 255
byte 9 255
byte 10 255
byte 11 255
check 4096 3072 id 2^64-1 before two cut entries
byte 4 0
byte 5 0
byte 6 0
byte 7 0
byte 8 0
byte 9 0
byte 10 0
byte 11 1
byte 0 0
check 4096 3072 no start before two cut entries
byte 0 2
check 4096 3072 a bad mark before two cut entries
byte 0 1
byte 2050 0
byte 2048 0
byte 2051 0
byte 2059 0
byte 3083 2
check 4096 4096 ids equal
byte 3083 1
check 4096 4096 ids falling
byte 3083 3
byte 11 0
check 4096 1024 id 0
byte 11 1
byte 3076 255
byte 3077 255
byte 3078 255
byte 3079 255
byte 3080 255
byte 3081 255
byte 3082 255
byte 3083 255
check 4096 4096 id 2^64-1
",
    )
}

// Says a state, or a refusal that leaves the one before, and hands on which it is.
fn moved(rt: &impl Print, to: Result<State, Refusal>, before: State) -> io::Result<State> {
    rt.println(Told(to))?;
    Ok(to.unwrap_or(before))
}

// "take": takes an id, and hands on the state.
pub fn take(rt: &impl Print, state: State) -> io::Result<State> {
    let taken = state.take();
    if let Ok(it) = taken {
        print!(rt; "id {}, ", it.id)?;
    }
    moved(rt, taken.map(|it| it.state), state)
}

// "raise STEP": raises the ceiling, and hands on the state.
pub fn raise(rt: &impl Print, state: State, line: Line<'_>) -> io::Result<State> {
    moved(rt, state.raise(line.number(1)), state)
}

// "open CEILING": recovers the log of the state's length with a stored ceiling, and hands on the state.
pub fn open(rt: &impl Print, store: &[u8], state: State, line: Line<'_>) -> io::Result<State> {
    let recovered = catalog::recover(store, state.length, line.number(1));
    moved(rt, recovered.map(|it| it.state), state)
}

// "check SIZE LENGTH NAME": what the sound check, and recovery with the stored ceiling 0, say of a log in the store's first bytes.
pub fn check(rt: &impl Print, store: &[u8], line: Line<'_>) -> io::Result<()> {
    rt.print(line.rest().rest().rest().0)?;
    match store.get(..line.size(1)) {
        None => Ok(()),
        Some(part) => check_both(rt, part, line.number(2)),
    }
}

fn check_both(rt: &impl Print, store: &[u8], length: u64) -> io::Result<()> {
    let checked = catalog::check(store, length);
    let recovered = catalog::recover(store, length, 0);
    println!(rt; ": check {}; recovery {}", Told(checked), Told(recovered))
}
