// Runs a script: lines of words and numbers, each of which does something to a store, or asks something of the log in it.
// The cases are lines and not calls, since each call with words or an array costs the check of its function more.
use crate::line::Line;
use crate::{building, ids, lookups, pushes, scans, tails};
use catalog::{Log, State};
use std::io;

pub fn run(rt: &impl Print, script: &str) -> io::Result<()> {
    let mut store = [0; 65536];
    lines(rt, &mut store, script)
}

// Each line works on the state that the last "state", push, take, raising or recovery left.
fn lines(rt: &impl Print, store: &mut [u8], script: &str) -> io::Result<()> {
    let mut state = State::fresh();
    for line in script.lines() {
        state = act(rt, store, state, Line(line))?;
    }
    Ok(())
}

// Does what the first word of a line says, and hands on the state, which is apart from the store, as for a push. A script is data, so this
// is a match.
fn act(rt: &impl Print, store: &mut [u8], state: State, line: Line<'_>) -> io::Result<State> {
    match line.word(0) {
        "state" => Ok(stated(line)),
        "entries" => pushes::entries(rt, store, line),
        "long" => pushes::long(rt, store, state, line),
        "short" => pushes::short(rt, store, state, line),
        "take" => tails::take(rt, state),
        "raise" => tails::raise(rt, state, line),
        "open" => tails::open(rt, store, state, line),
        _ => {
            building::change(store, line);
            ask(rt, Log { store, state }, line)?;
            Ok(state)
        }
    }
}

// "state LENGTH LAST NEXT CEILING".
fn stated(line: Line<'_>) -> State {
    State {
        length: line.number(1),
        last: line.number(2),
        next: line.number(3),
        ceiling: line.number(4),
    }
}

// Asks something of the log: one arm for each word of a script.
fn ask(rt: &impl Print, log: Log<'_>, line: Line<'_>) -> io::Result<()> {
    match line.word(0) {
        "title" => rt.println(line.rest().0),
        "name" => name(rt, line.rest().0),
        "check" => tails::check(rt, log.store, line),
        "ids" => lookups::ids(rt, log, line),
        "within" => lookups::within(rt, log, line),
        "range" => scans::range(rt, log, line),
        "at" => scans::at(rt, log, line),
        "out" => scans::out(rt, log, line),
        "grow" => ids::grow(rt, 0, line),
        "junk" => ids::grow(rt, u64::MAX, line),
        "down" => ids::down(rt, line),
        "hex" => pushes::hex(rt, log.store, line),
        "untouched" => pushes::untouched(rt, log),
        "query" => pushes::query(rt, log, line),
        "verify" => pushes::verify(rt, log, line),
        "yields" => pushes::yields(rt, log),
        _ => Ok(()),
    }
}

// What the next answer is of.
fn name(rt: &impl Print, words: &str) -> io::Result<()> {
    print!(rt; "{words}: ")
}
