// A line of the list: eight numbers of sixteen hexadecimal digits, each followed by one byte.
use catalog::{Look, State};
use scanning::Range;
use sequence::IdSequence;
use std::ops::Bound;

// What is called, with what the Rust answered. Neither printed nor compared.
#[derive(Clone, Copy)]
pub enum Line {
    Fresh {
        seed: u64,
    },
    Stage {
        id: u64,
        length: u64,
    },
    Push {
        // the refusal's number, 0 for none: the list has no more
        reason: u64,
        written: u64,
        length: u64,
        last: u64,
        sum: u64,
    },
    Next {
        id: u64,
    },
    Idle,
    Lookup {
        id: u64,
        look: Option<Look>,
        sum: u64,
    },
    Scan {
        range: Range,
        count: u64,
        sum: u64,
    },
    Recover {
        excess: u64,
        state: State,
    },
    Sequence {
        start: u64,
    },
    Note {
        id: u64,
        complete: bool,
        sequence: IdSequence,
    },
    Take {
        next: u64,
        id: u64,
        after: u64,
    },
}

// The value of a hexadecimal digit; 0 for what is none. Kept: `to_digit` takes capitals too.
fn digit(byte: u8) -> u8 {
    match byte {
        b'0'..=b'9' => byte - b'0',
        b'a'..=b'f' => byte - b'a' + 10,
        _ => 0,
    }
}

// The number in a column: sixteen digits, and a byte that is not read.
fn number(column: &[u8]) -> u64 {
    column
        .iter()
        .take(16)
        .fold(0, |n, byte| (n << 4) | u64::from(digit(*byte)))
}

fn numbers(line: &[u8; 136]) -> [u64; 8] {
    let mut all = [0; 8];
    for (n, column) in all.iter_mut().zip(line.chunks_exact(17)) {
        *n = number(column);
    }
    all
}

// One end of a range. Kept: the list has numbers for it, since it is data.
fn bound(kind: u64, id: u64) -> Bound<u64> {
    match kind {
        1 => Bound::Included(id),
        2 => Bound::Excluded(id),
        _ => Bound::Unbounded,
    }
}

// What a lookup found, if the list says so.
fn look(found: u64, position: u64, length: u64) -> Option<Look> {
    match found {
        0 => Some(Look::Absent { position }),
        1 => Some(Look::Found { position, length }),
        _ => None,
    }
}

// None for a line of no kind. The kinds are numbers since the list is data.
pub fn read(line: &[u8; 136]) -> Option<Line> {
    let [kind, a, b, c, d, e, f, _] = numbers(line);
    match kind {
        0 => Some(Line::Fresh { seed: a }),
        1 => Some(Line::Stage { id: a, length: b }),
        2 => Some(Line::Push {
            reason: a,
            written: b,
            length: c,
            last: d,
            sum: e,
        }),
        3 => Some(Line::Next { id: a }),
        4 => Some(Line::Idle),
        5 => Some(Line::Lookup {
            id: a,
            look: look(b, c, d),
            sum: e,
        }),
        6 => Some(Line::Scan {
            range: Range {
                lower: bound(a, b),
                upper: bound(c, d),
            },
            count: e,
            sum: f,
        }),
        7 => Some(Line::Recover {
            excess: a,
            state: State {
                length: b,
                last: c,
                next: d,
                ceiling: d,
            },
        }),
        8 => Some(Line::Sequence { start: a }),
        9 => Some(Line::Note {
            id: a,
            complete: b == 1,
            sequence: IdSequence { start: c, after: d },
        }),
        10 => Some(Line::Take {
            next: a,
            id: b,
            after: c,
        }),
        _ => None,
    }
}
