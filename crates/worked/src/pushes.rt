// Pushes onto small stores: the rules' cases, every refusal of a batch, full stores, long payloads and a batch of 1,000 entries.
use crate::building::{is_mixed, mix};
use crate::line::Line;
use crate::pages::{marked, show};
use crate::say::Told;
use crate::script;
use catalog::{Log, Look, State};
use page::Page;
use std::io;

pub fn run(rt: &impl Print) -> io::Result<()> {
    script::run(
        rt,
        "name push (1, hello), (2, none) from the fresh state
entries 0 0 hello 1 2 - 5 5 -
hex 0
hex 1
untouched
query 1
name last written 5, push 6, 6
entries 0 5  6 6 - 0 0 -
untouched
name last written 5, push 5
entries 0 5 x 5 - - 1 - -
untouched
name push 0
entries 0 0  0 - - 0 - -
untouched
name push 3, 2, 4
entries 0 0 xyz 3 2 4 1 2 3
untouched
fill 255
state 0 0 1 1
name two pages, push 1 with 5 bytes and 2 with 1013
long 2048 - - 1 2 - 5 1018 -
untouched
name   push 2 again, with 1012 bytes
long 2048 - - 2 - - 1012 - -
name   push 4, 2 after that
long 2048 - - 4 2 - 0 0 -
name   push 2, 4 after that
long 2048 - - 2 4 - 0 0 -
name an empty batch
entries 0 0 ignored - - - - - -
untouched
name two ids and one end
entries 0 0 xyz 1 2 - 1 - -
untouched
name one id and two ends
entries 0 0 xyz 1 - - 1 2 -
untouched
name ends that fall, 2 then 1
entries 0 0 xyz 1 2 - 2 1 -
untouched
name an end beyond the data
entries 0 0 xyz 1 2 - 1 4 -
untouched
name an end of 2^64-1
entries 0 0 xyz 1 - - 18446744073709551615 - -
untouched
name bytes after the last end
entries 0 0 xyz 1 - - 1 - -
untouched
name a length of 1000, push 0 with a bad end
entries 1000 0  0 - - 9 - -
untouched
name a length of 5120 in 4096 bytes
entries 5120 0  1 - - 0 - -
name push 2^64-1
entries 0 0 ab 18446744073709551615 - - 2 - -
yields
fill 255
state 0 0 1 2
name push 1 with 1011 bytes
long 4096 - - 1 - - 1011 - -
untouched
verify 1011
fill 255
state 0 0 1 2
name push 1 with 1012 bytes
long 4096 - - 1 - - 1012 - -
untouched
verify 1012
fill 255
state 0 0 1 2
name push 1 with 1013 bytes
long 4096 - - 1 - - 1013 - -
untouched
verify 1013
fill 255
state 0 0 1 2
name push 1 with 1014 bytes
long 4096 - - 1 - - 1014 - -
untouched
verify 1014
fill 255
state 0 0 1 2
name push 1 with 2034 bytes
long 4096 - - 1 - - 2034 - -
untouched
verify 2034
fill 255
state 0 0 1 2
name push 1 with 2035 bytes
long 4096 - - 1 - - 2035 - -
untouched
verify 2035
fill 255
state 0 0 1 2
name push 1 with 2036 bytes
long 4096 - - 1 - - 2036 - -
untouched
verify 2036
fill 255
state 0 0 1 2
name push 1 with 2037 bytes
long 4096 - - 1 - - 2037 - -
untouched
verify 2037
name push (1, hello) from the fresh state
entries 0 0 hello 1 - - 5 - -
name   then 2 with a payload of 3000 bytes
long 4096 - - 2 - - 2992 - -
check 4096 3500   cut at byte 3500
check 4096 2047   cut at byte 2047
check 4096 1023   cut at byte 1023
",
    )?;
    thousand(rt)
}

// "untouched": says whether no byte after the log was touched.
pub fn untouched(rt: &impl Print, log: Log<'_>) -> io::Result<()> {
    match log.store.get(log.state.length as usize..) {
        None => Ok(()),
        Some(rest) if rest.iter().all(|byte| *byte == 0xff) => rt.println(
            "  no byte after that is touched",
        ),
        Some(_) => rt.println("  bytes after that are touched"),
    }
}

// Pushes onto a store, says what that answered, and hands on the state. All go apart, as a push takes them.
fn further(
    rt: &impl Print,
    store: &mut [u8],
    state: State,
    ids: &[u64],
    ends: &[u64],
    bytes: &[u8],
) -> io::Result<State> {
    let pushed = pushing::push(store, state, ids, ends, bytes);
    rt.println(Told(pushed))?;
    Ok(pushed.state)
}

// Of three numbers from word k on, those before the first "-".
fn few<'a>(line: Line<'_>, k: usize, numbers: &'a [u64; 3]) -> &'a [u64] {
    let n = line.words().skip(k).position(|word| word == "-");
    numbers.get(..n.unwrap_or(3)).unwrap_or(numbers)
}

// The same with the batch of a line: words 4 to 6 are its ids, and 7 to 9 its ends.
fn push_few(
    rt: &impl Print,
    store: &mut [u8],
    state: State,
    line: Line<'_>,
    bytes: &[u8],
) -> io::Result<State> {
    let ids = [line.number(4), line.number(5), line.number(6)];
    let ends = [line.number(7), line.number(8), line.number(9)];
    further(
        rt,
        store,
        state,
        few(line, 4, &ids),
        few(line, 7, &ends),
        bytes,
    )
}

// "entries LENGTH LAST DATA IDS ENDS": pushes onto four pages that hold nothing yet, from a state.
pub fn entries(rt: &impl Print, store: &mut [u8], line: Line<'_>) -> io::Result<State> {
    let state = State {
        length: line.number(1),
        last: line.number(2),
        ..State::fresh()
    };
    store.fill(0xff);
    onto(rt, store, 4096, state, line, line.word(3).as_bytes())
}

// "short SIZE - DATA IDS ENDS": pushes onto what is there, with short data.
pub fn short(rt: &impl Print, store: &mut [u8], state: State, line: Line<'_>) -> io::Result<State> {
    onto(
        rt,
        store,
        line.size(1),
        state,
        line,
        line.word(3).as_bytes(),
    )
}

// "long SIZE - - IDS ENDS": pushes onto what is there, with long data.
pub fn long(rt: &impl Print, store: &mut [u8], state: State, line: Line<'_>) -> io::Result<State> {
    let mut bytes = [0; 4096];
    mix(&mut bytes, 0);
    onto(rt, store, line.size(1), state, line, &bytes)
}

// Pushes onto a store's first bytes.
fn onto(
    rt: &impl Print,
    store: &mut [u8],
    size: usize,
    state: State,
    line: Line<'_>,
    bytes: &[u8],
) -> io::Result<State> {
    match store.get_mut(..size) {
        None => Ok(state),
        Some(part) => push_few(rt, part, state, line, bytes),
    }
}

// "hex PAGE".
pub fn hex(rt: &impl Print, store: &[u8], line: Line<'_>) -> io::Result<()> {
    let p = line.size(1);
    match store.chunks_exact(Page::SIZE).nth(p) {
        None => Ok(()),
        Some(page) => told(rt, p, page),
    }
}

fn told(rt: &impl Print, p: usize, page: &[u8]) -> io::Result<()> {
    print!(rt; "  page {p}: ")?;
    show(rt, page)
}

// "query ID": where the id is, or would be.
pub fn query(rt: &impl Print, log: Log<'_>, line: Line<'_>) -> io::Result<()> {
    let id = line.number(1);
    println!(rt; "  a lookup of {id}: {}", Told(log.find(id)))
}

// "yields": what recovery says then.
pub fn yields(rt: &impl Print, log: Log<'_>) -> io::Result<()> {
    let recovered = catalog::recover(log.store, log.state.length, 0);
    println!(rt; "  recovery then: {}", Told(recovered))
}

// A lookup of the id hands over n bytes of the long data from a place on.
fn reads_back(log: Log<'_>, id: u64, from: usize, n: usize) -> bool {
    let mut out = [0; 4096];
    match log.lookup(id, &mut out) {
        Ok(Look::Found { length, .. }) if length as usize == n => out
            .get(..n)
            .is_some_and(|bytes| is_mixed(bytes, 0, from)),
        _ => false,
    }
}

fn say_back(rt: &impl Print, back: bool) -> io::Result<()> {
    if back {
        rt.println("  the data reads back the same")
    } else {
        rt.println("  the data does not read back")
    }
}

// "verify N": id 1 has n bytes of the long data, once it is taken.
pub fn verify(rt: &impl Print, log: Log<'_>, line: Line<'_>) -> io::Result<()> {
    let state = log.state.take().map_or(log.state, |taken| taken.state);
    say_back(rt, reads_back(Log { state, ..log }, 1, 0, line.size(1)))
}

// Fills a list with 1, 2, 3 and so on.
fn ascend(list: &mut [u64]) {
    for (j, number) in list.iter_mut().enumerate() {
        *number = j as u64 + 1;
    }
}

// Each of so many entries reads back.
fn all_back(log: Log<'_>, ids: &[u64]) -> bool {
    ids.iter()
        .enumerate()
        .all(|(j, id)| reads_back(log, *id, j, 1))
}

// A batch of 1,000 entries with 1 byte each: entry j ends after j bytes.
fn thousand(rt: &impl Print) -> io::Result<()> {
    let mut store = marked::<1048576>();
    let mut numbers = [0; 1000];
    let mut bytes = [0; 4096];
    ascend(&mut numbers);
    mix(&mut bytes, 0);
    push_all(rt, &mut store, &numbers, &bytes)
}

fn push_all(rt: &impl Print, store: &mut [u8], numbers: &[u64], bytes: &[u8]) -> io::Result<()> {
    rt.print("push 1 to 1000 with 1 byte each: ")?;
    let state = further(rt, store, State::fresh(), numbers, numbers, bytes)?;
    untouched(rt, Log { store, state })?;
    let state = State {
        next: 1001,
        ceiling: 1001,
        ..state
    };
    say_back(rt, all_back(Log { store, state }, numbers))
}
