// The id sequence: nebari's own tests, the window's edges, and ids noted twice.
ghost use Rattle.std.specs.Prelude.{◌+◌, ◌<◌};

use crate::line::{Line, number};
use crate::say::Told;
use crate::script;
use sequence::IdSequence;
use std::{fmt, io};

pub fn run(rt: &impl Print) -> io::Result<()> {
    script::run(
        rt,
        "grow 1 3 1 2 4
down 0 66
down 1 1024
junk 5 4100
junk 5 4101
junk 5 4
junk 5 18446744073709551615
down 7 4096
down 7 4097
grow 5 6 4 4101 5
grow 5 5 4101 4102
grow 18446744073709551614 18446744073709551614 18446744073709551615 18446744073709551614
junk 18446744073709551615 18446744073709551615 18446744073709551614
down 18446744073709551515 100
grow 1 3 3 1 2 3 1
",
    )?;
    by_blocks(rt)?;
    rt.print("words all ones, ")?;
    grow(rt, u64::MAX, Line("junk 1 3 1 2 1000"))
}

// "grow START IDS" and "junk START IDS": a new sequence, and ids noted one after the other. What the words held before is nobody's note.
pub fn grow(rt: &impl Print, held: u64, line: Line<'_>) -> io::Result<()> {
    let mut words = [held; 64];
    let s = begin(rt, line.number(1))?;
    end(rt, notes(rt, s, &mut words, line)?)
}

// "down FIRST COUNT": a new sequence, and the ids from first + count - 1 down to first.
pub fn down(rt: &impl Print, line: Line<'_>) -> io::Result<()> {
    let mut words = [0; 64];
    let first = line.number(1);
    let count = line.number(2);
    if count <= u64::MAX - first {
        let s = begin(rt, first)?;
        end(rt, note_down(rt, s, &mut words, first, count)?)?;
    }
    Ok(())
}

// Start moves by the first 64 that remain, or by all if fewer: until then an id noted again is no refusal.
fn by_blocks(rt: &impl Print) -> io::Result<()> {
    let mut words = [0; 64];
    let fresh = begin(rt, 1)?;
    let a = notes(rt, fresh, &mut words, Line("grow 1 66 1 1"))?;
    end(rt, a)?;
    rt.print("that sequence")?;
    let b = note_down(rt, a, &mut words, 2, 63)?;
    end(rt, b)?;
    rt.print("that sequence")?;
    end(rt, note(rt, b, &mut words, 65)?)
}

fn begin(rt: &impl Print, start: u64) -> io::Result<IdSequence> {
    let s = IdSequence::new(start);
    print!(rt; "sequence from {start}, {}", Told(s))?;
    Ok(s)
}

// Says what noting each id of a line gives. The words go beside the sequence, as its caller lends them.
fn notes(
    rt: &impl Print,
    s: IdSequence,
    words: &mut [u64; 64],
    line: Line<'_>,
) -> io::Result<IdSequence> {
    let mut sequence = s;
    for id in line.words().skip(2) {
        sequence = note(rt, sequence, words, number(id))?;
    }
    Ok(sequence)
}

// Says what noting an id gives; a refusal leaves the sequence.
fn note(rt: &impl Print, s: IdSequence, words: &mut [u64; 64], id: u64) -> io::Result<IdSequence> {
    let noted = s.note(words, id);
    print!(rt; "; note {id}, {}", Told(noted))?;
    Ok(noted.unwrap_or(s))
}

// A sequence, and how often each answer came on the way to it. Printed by its own words, and never compared.
#[derive(Clone, Copy)]
struct Tally {
    sequence: IdSequence,
    no: u64,
    yes: u64,
    refused: u64,
}

impl fmt::Display for Tally {
    fn fmt<W: fmt::Write>(&self, f: &mut fmt::Formatter<W>) -> fmt::Result {
        write!(
            f,
            "no {}, yes {}, refused {}, {}",
            self.no,
            self.yes,
            self.refused,
            Told(self.sequence)
        )
    }
}

// Notes the ids from first + count - 1 down to first.
fn tally_down(s: IdSequence, words: &mut [u64; 64], first: u64, count: u64) -> Tally
    requires { first + count < 18446744073709551616 }
{
    let mut t = Tally {
        sequence: s,
        no: 0,
        yes: 0,
        refused: 0,
    };
    for left in (0..count).rev() {
        match t.sequence.note(words, first + left) {
            Ok(next) => {
                t.sequence = next;
                if next.complete() {
                    t.yes += 1;
                } else {
                    t.no += 1;
                }
            }
            Err(_) => t.refused += 1,
        }
    }
    t
}

// The same, told.
fn note_down(
    rt: &impl Print,
    s: IdSequence,
    words: &mut [u64; 64],
    first: u64,
    count: u64,
) -> io::Result<IdSequence>
    requires { first + count < 18446744073709551616 }
{
    let tally = tally_down(s, words, first, count);
    print!(rt; "; note {count} ids down to {first}: {tally}")?;
    Ok(tally.sequence)
}

fn end(rt: &impl Print, s: IdSequence) -> io::Result<()> {
    println!(rt; "; start {}", s.start)
}
