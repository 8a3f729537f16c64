// Scans of one log with an idle page and an entry of three pages: every kind of range, outputs, damage and bad cursors.
use crate::building::handed;
use crate::line::{Line, number};
use crate::say::Told;
use crate::{say, script};
use catalog::Log;
use refusal::Refusal;
use scanning::{Range, Stepped};
use std::io;
use std::ops::Bound;

// Ids 2, 4 on three pages, an idle page, 6 and 9: seven pages.
pub fn run(rt: &impl Print) -> io::Result<()> {
    script::run(
        rt,
        "put 0 2 two
mixed 1 4 2992
put 5 6 six
put 6 9 nine
state 7168 0 11
title scans of ids 2, 4 on three pages, an idle page, 6, 9; next 11
range - -
range - <=4
range - <4
range >=4 -
range >4 -
range >=4 <=6
range >=4 <6
range >4 <=6
range >=5 <=8
range >=6 <=6
range >0 <=2
title ranges with nothing in them
range >4 <6
range >=6 <6
range >=3 <=3
range >=9 <=4
range >=0 <2
range >=10 -
range >=11 -
title no pages, next 1
state 0 0 1
range - -
range >=1 -
title the same, next 6
state 7168 0 6
range >=6 -
range >8 -
range >=5 -
range - -
state 7168 0 11
title 2 into 2, 3 and 5 bytes that held dots
out 2 - -
out 3 - -
out 5 - -
title 4 into 2991 and 2992 bytes
out 2991 - - 1024
out 2992 - - 1024
title from page 0 into 2 and 3 bytes, 2 and 4 not in the range
out 2 >4 -
out 3 >4 -
title cursors within entry 4, at the length, above it and off a page
at 2048 - -
at 7168 - -
at 8192 - -
at 1000 - -
title lengths off a page and above the store
state 7000 0 11
range - -
state 66560 0 11
range >=2 -
state 7168 0 11
byte 4096 7
byte 2048 2
title mark 7 on the idle page 4, mark 2 within entry 4 on page 2
range - -
range >=6 -
at 2048 - -
at 1024 - <=2
byte 4096 0
byte 2048 0
byte 5123 7
title payload length 7 on page 5
range - -
at 4096 >=9 -
byte 5123 11
byte 6146 3
byte 6147 252
title payload lengths 1020 and 1021 on page 6
at 4096 - <=4
byte 6147 253
range - -
at 4096 - <=4
",
    )
}

// The end that a word says: "-" is open, and "=" makes it included.
fn bound(word: &str) -> Bound<u64> {
    let Some(end) = word.strip_prefix(['<', '>']) else {
        return Bound::Unbounded;
    };
    match end.strip_prefix('=') {
        Some(id) => Bound::Included(number(id)),
        None => Bound::Excluded(number(end)),
    }
}

// The range between two ends in words.
fn between(lower: &str, upper: &str) -> Range {
    Range {
        lower: bound(lower),
        upper: bound(upper),
    }
}

// Says an end: one of three wordings, open, included or excluded, the latter two before its id.
fn say_bound(
    rt: &impl Print,
    end: Bound<u64>,
    open: &str,
    included: &str,
    excluded: &str,
) -> io::Result<()> {
    match end {
        Bound::Unbounded => rt.print(open),
        Bound::Included(id) => print!(rt; "{included}{id}"),
        Bound::Excluded(id) => print!(rt; "{excluded}{id}"),
    }
}

// Says the entry that a step handed over to an output.
fn entry(rt: &impl Print, id: u64, length: u64, out: &[u8]) -> io::Result<()> {
    print!(rt; "{id} (")?;
    if 16 < length {
        print!(rt; "{length} bytes ")?;
    }
    handed(rt, out, length as usize, id)?;
    rt.print(") then ")
}

// Says what a step answered; `out` is the output after it.
fn answer(rt: &impl Print, stepped: Result<Stepped, Refusal>, out: &[u8]) -> io::Result<()> {
    match stepped {
        Ok(Stepped::Entry { id, length, cursor }) => {
            entry(rt, id, length, out)?;
            rt.print(cursor)
        }
        Ok(Stepped::End { cursor }) => print!(rt; "end at {cursor}"),
        Err(refusal) => rt.print(Told(refusal)),
    }
}

// Where the next step begins, if one may come.
fn next(stepped: Result<Stepped, Refusal>) -> Option<u64> {
    match stepped {
        Ok(Stepped::Entry { cursor, .. }) => Some(cursor),
        _ => None,
    }
}

// A log, and the range that is scanned in it. Neither printed nor compared.
#[derive(Clone, Copy)]
struct Scan<'a> {
    log: Log<'a>,
    range: Range,
}

impl Scan<'_> {
    // Takes a step into an output, says what that gave, and hands on where the next begins.
    fn told(self, rt: &impl Print, cursor: u64, out: &mut [u8]) -> io::Result<Option<u64>> {
        let stepped = scanning::step(self.log, self.range, cursor, out);
        answer(rt, stepped, out)?;
        Ok(next(stepped))
    }

    // The same, with an output of 4,096 bytes.
    fn roomy(self, rt: &impl Print, cursor: u64) -> io::Result<Option<u64>> {
        let mut out = [0; 4096];
        self.told(rt, cursor, &mut out)
    }

    // Takes steps from a cursor to the end, or to a refusal.
    fn steps(self, rt: &impl Print, from: u64) -> io::Result<()> {
        let mut at = from;
        for _ in 0..9 {
            rt.print("; ")?;
            let Some(cursor) = self.roomy(rt, at)? else {
                break;
            };
            at = cursor;
        }
        Ok(())
    }

    // Runs the whole of it.
    fn whole(self, rt: &impl Print) -> io::Result<()> {
        let began = scanning::scan(self.log, self.range);
        print!(rt; ": {}", Told(began))?;
        match began {
            Ok(cursor) => self.steps(rt, cursor),
            Err(_) => Ok(()),
        }
    }
}

// "range LOWER UPPER": runs a whole scan and says what that gave.
pub fn range(rt: &impl Print, log: Log<'_>, line: Line<'_>) -> io::Result<()> {
    let range = between(line.word(1), line.word(2));
    say_bound(rt, range.lower, "  from the first", "  from ", "  above ")?;
    say_bound(rt, range.upper, " to the last", " to ", " below ")?;
    Scan { log, range }.whole(rt)?;
    rt.println("")
}

// "at CURSOR LOWER UPPER": takes one step from a cursor.
pub fn at(rt: &impl Print, log: Log<'_>, line: Line<'_>) -> io::Result<()> {
    let cursor = line.number(1);
    print!(rt; "  from {cursor}: ")?;
    let range = between(line.word(2), line.word(3));
    Scan { log, range }.roomy(rt, cursor)?;
    rt.println("")
}

// "out N LOWER UPPER CURSOR": takes a step into n dots, at most 4,096.
pub fn out(rt: &impl Print, log: Log<'_>, line: Line<'_>) -> io::Result<()> {
    let mut dots = [b'.'; 4096];
    match dots.get_mut(..line.size(1)) {
        None => Ok(()),
        Some(out) => into(rt, log, line, out),
    }
}

fn into(rt: &impl Print, log: Log<'_>, line: Line<'_>, dots: &mut [u8]) -> io::Result<()> {
    rt.print("  ")?;
    let range = between(line.word(2), line.word(3));
    Scan { log, range }.told(rt, line.number(4), dots)?;
    say::dots(rt, dots)
}
