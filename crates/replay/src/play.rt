// Each kind of line: the library's answer is held to the Rust's.
use crate::line::Line;
use crate::sum;
use catalog::{Log, Look, Recovered, State, Taken};
use page::Page;
use refusal::Refusal;
use scanning::{Range, Stepped};
use sequence::IdSequence;

// The arrays that the calls are lent: ids and ends are two, as a push takes them, and each is fixed, with no heap. Apart from the world,
// which is a plain value, and owned: behind a reference, a field that is itself a `&mut` cannot be read while another is lent.
#[derive(Drop)]
pub struct Lent {
    pub store: [u8; 65536],
    pub pattern: [u8; 65536],
    pub out: [u8; 65536],
    pub ids: [u64; 16],
    pub ends: [u64; 16],
    pub words: [u64; 64],
}

// What goes on from line to line beside them. Neither printed nor compared.
#[derive(Clone, Copy)]
pub struct World {
    state: State,
    staged: usize,
    end: u64,
    sequence: IdSequence,
    pub compared: u64,
    pub wrong: u64,
}

// The most bytes of an entry, and of the data before it.
const MOST: u64 = 65536;

// What a scan has handed over.
#[derive(Clone, Copy, PartialEq, Eq)]
struct Seen {
    count: u64,
    sum: u64,
}

// Byte i of the pattern that the entries' data is cut from.
fn draw(pattern: &mut [u8], seed: u64) {
    let from = (seed % 251) as usize;
    for (i, byte) in pattern.iter_mut().enumerate() {
        *byte = ((i % 251 + from) % 251) as u8;
    }
}

// Runs a whole scan.
fn scanned(log: Log<'_>, range: Range, out: &mut [u8]) -> Result<Seen, Refusal> {
    let mut cursor = scanning::scan(log, range)?;
    let mut sum = 0;
    for count in 0..1000 {
        match scanning::step(log, range, cursor, out)? {
            Stepped::Entry {
                id,
                length,
                cursor: after,
            } => {
                sum = sum::of_front(sum::of_number(sum, id), out, length);
                cursor = after;
            }
            Stepped::End { .. } => return Ok(Seen { count, sum }),
        }
    }
    Ok(Seen { count: 1000, sum })
}

impl World {
    pub fn new() -> World {
        World {
            state: State::fresh(),
            staged: 0,
            end: 0,
            sequence: IdSequence::new(0),
            compared: 0,
            wrong: 0,
        }
    }

    // Plays a line; one of no kind is a wrong answer.
    pub fn play(&mut self, lent: &mut Lent, line: Option<Line>) {
        let right = match line {
            Some(line) => self.turn(lent, line),
            None => Some(false),
        };
        if let Some(right) = right {
            self.compared = self.compared.saturating_add(1);
            self.wrong = self.wrong.saturating_add(u64::from(!right));
        }
    }

    // Whether the answer is the Rust's, if the line has one.
    fn turn(&mut self, lent: &mut Lent, line: Line) -> Option<bool> {
        match line {
            Line::Fresh { seed } => {
                self.fresh(lent, seed);
                None
            }
            Line::Stage { id, length } => self.stage(lent, id, length),
            Line::Push {
                reason,
                written,
                length,
                last,
                sum,
            } => {
                let state = State {
                    length,
                    last,
                    ..self.state
                };
                Some(self.push(lent, reason, written, state, sum))
            }
            Line::Next { id } => {
                self.next(id);
                None
            }
            Line::Idle => self.idle(lent),
            Line::Lookup { id, look, sum } => Some(self.lookup(lent, id, look, sum)),
            Line::Scan { range, count, sum } => Some(self.scan(lent, range, Seen { count, sum })),
            Line::Recover { excess, state } => Some(self.recover(lent, excess, state)),
            Line::Sequence { start } => {
                self.begin(lent, start);
                None
            }
            Line::Note {
                id,
                complete,
                sequence,
            } => Some(self.note(lent, id, complete, sequence)),
            Line::Take { next, id, after } => Some(takes(next, id, after)),
        }
    }

    // A store is filled with a byte that is not zero, so that zeros in a page are the push's own.
    fn fresh(&mut self, lent: &mut Lent, seed: u64) {
        lent.store.fill(0x5a);
        draw(&mut lent.pattern, seed);
        self.state = State::fresh();
        self.staged = 0;
        self.end = 0;
    }

    fn stage(&mut self, lent: &mut Lent, id: u64, length: u64) -> Option<bool> {
        let i = self.staged;
        if lent.ids.len().min(lent.ends.len()) <= i {
            return Some(false);
        }
        if MOST < length || MOST < self.end {
            return Some(false);
        }
        let end = self.end + length;
        lent.ids[i] = id;
        lent.ends[i] = end;
        self.staged = i + 1;
        self.end = end;
        None
    }

    fn push(&mut self, lent: &mut Lent, reason: u64, written: u64, after: State, sum: u64) -> bool {
        let n = self.staged.min(lent.ids.len()).min(lent.ends.len());
        let state = self.state;
        let ids = &lent.ids[..n];
        let ends = &lent.ends[..n];
        let pushed = pushing::push(&mut lent.store, state, ids, ends, &lent.pattern);
        self.state = pushed.state;
        self.staged = 0;
        self.end = 0;
        pushed.reason.map_or(0, Refusal::number) == reason
            && pushed.written == written
            && pushed.state == after
            && sum::of_front(0, &lent.store, after.length) == sum
    }

    fn next(&mut self, id: u64) {
        self.state.next = id;
        self.state.ceiling = id;
    }

    // A page with mark 0; the rest of it is the store's.
    fn idle(&mut self, lent: &mut Lent) -> Option<bool> {
        let at = self.state.length as usize;
        if lent.store.len() <= at {
            return Some(false);
        }
        lent.store[at] = 0;
        self.state.length = self.state.length.saturating_add(Page::SIZE as u64);
        None
    }

    fn log(self, store: &[u8]) -> Log<'_> {
        let state = self.state;
        Log { store, state }
    }

    fn lookup(self, lent: &mut Lent, id: u64, look: Option<Look>, sum: u64) -> bool {
        let log = self.log(&lent.store);
        let found = log.lookup(id, &mut lent.out).ok();
        match found {
            Some(Look::Found { length, .. }) => {
                found == look && sum::of_front(0, &lent.out, length) == sum
            }
            Some(Look::Absent { .. }) => found == look,
            None => false,
        }
    }

    fn scan(self, lent: &mut Lent, range: Range, seen: Seen) -> bool {
        let log = self.log(&lent.store);
        scanned(log, range, &mut lent.out) == Ok(seen)
    }

    fn recover(self, lent: &mut Lent, excess: u64, state: State) -> bool {
        let length = self.state.length.saturating_add(excess);
        catalog::recover(&lent.store, length, 0)
            == Ok(Recovered {
                state,
                excess,
                dropped: 0,
            })
    }

    fn begin(&mut self, lent: &mut Lent, start: u64) {
        lent.words.fill(0);
        self.sequence = IdSequence::new(start);
    }

    fn note(&mut self, lent: &mut Lent, id: u64, complete: bool, sequence: IdSequence) -> bool {
        let noted = self.sequence.note(&mut lent.words, id);
        self.sequence = noted.unwrap_or(self.sequence);
        noted == Ok(sequence) && sequence.complete() == complete
    }
}

// The Rust has no ceiling: the highest stands in for it.
fn takes(next: u64, id: u64, after: u64) -> bool {
    let before = State {
        next,
        ceiling: u64::MAX,
        ..State::fresh()
    };
    before.take()
        == Ok(Taken {
            id,
            state: State {
                next: after,
                ..before
            },
        })
}
