// Lookups in logs that are written entry by entry: the rules' cases, idle pages, far ids, long entries, damage and small outputs.
use crate::building::handed;
use crate::line::Line;
use crate::say::Told;
use crate::{say, script};
use catalog::{Log, Look};
use std::io;

pub fn run(rt: &impl Print) -> io::Result<()> {
    script::run(
        rt,
        "put 0 1 one
put 1 2 two
put 2 3 three
put 3 4 four
put 4 5 five
put 5 6 six
put 6 7 seven
put 7 8 eight
put 8 9 nine
put 9 10 ten
title ten entries of one page, next 11
state 10240 0 11
ids 0 11
title the same, next 14
state 10240 0 14
ids 10 14
fill 0
put 0 2 two
put 1 4 four
put 2 6 six
put 3 8 eight
put 4 10 ten
title entries 2, 4, 6, 8, 10, next 12
state 5120 0 12
ids 1 12
fill 0
mixed 0 1 2992
put 3 2 two
put 4 3 three
put 5 4 four
title the log of six pages, next 8
state 6144 0 8
ids 0 8
fill 0
put 0 1 hello
put 1 2
title the hello pages, next 1
state 2048 0 1
ids 0 2
title the hello pages, next 3
state 2048 0 3
ids 0 3
fill 0
put 0 2 two
put 3 5 five
mixed 5 9 1500
title 2 on page 0, 5 on page 3, 9 on pages 5 and 6, idle pages between and after, next 12
state 8192 0 12
ids 0 12
",
    )?;
    // 4294967296 is 2^32, 9223372036854775808 is 2^63.
    script::run(
        rt,
        "put 0 1 1
put 1 4294967296 2^32
put 2 9223372036854775808 2^63
put 3 18446744073709551614 2^64-2
title ids 1, 2^32, 2^63, 2^64-2, next 2^64-1
state 4096 0 18446744073709551615
ids 0 2
ids 4294967295 4294967297
ids 9223372036854775807 9223372036854775809
ids 18446744073709551613 18446744073709551615
fill 0
mixed 0 10 4090
mixed 5 11 1012
mixed 6 13 1013
mixed 8 16 4000
title entries of 5, 1, 2 and 4 pages, next 18
state 12288 0 18
ids 9 18
",
    )?;
    damage(rt)
}

fn damage(rt: &impl Print) -> io::Result<()> {
    script::run(
        rt,
        "put 0 1 one
put 1 2 two
put 2 3 three
put 3 4 four
put 4 5 five
put 5 6 six
put 6 7 seven
put 7 8 eight
put 8 9 nine
put 9 10 ten
state 10240 0 11
title ten entries, mark 7 on page 4
byte 4096 7
ids 4 6
title page 4 idle, mark 2 on page 3
byte 4096 0
byte 3072 2
ids 5 5
byte 4096 1
byte 3072 1
title payload lengths 7 and 6135 on page 4
byte 4099 7
ids 5 5
byte 4098 23
byte 4099 247
ids 5 5
title payload lengths 6136 and 16717816 on page 4
byte 4099 248
ids 5 5
byte 4097 255
ids 5 5
fill 0
title a length of 1000 bytes, and one above the store
state 1000 0 11
ids 0 0
state 66560 0 11
ids 12 12
title no pages, next 3
state 0 0 3
ids 0 3
put 0 1 hello
state 1024 0 2
title hello into 4, 5 and 8 bytes that held dots
within 4
within 5
within 8
",
    )
}

// Looks up one id and says what that gave.
fn one(rt: &impl Print, log: Log<'_>, id: u64) -> io::Result<()> {
    let mut out = [0; 4096];
    let look = log.lookup(id, &mut out);
    print!(rt; "  {id}: {}", Told(look))?;
    if let Ok(Look::Found { length, .. }) = look {
        if 0 < length {
            rt.print(": ")?;
        }
        handed(rt, &out, length as usize, id)?;
    }
    rt.println("")
}

// "ids FROM TO": looks up every id from one to another.
pub fn ids(rt: &impl Print, log: Log<'_>, line: Line<'_>) -> io::Result<()> {
    for id in line.number(1)..=line.number(2) {
        one(rt, log, id)?;
    }
    Ok(())
}

// "within N": looks up 1 with an output of n dots, at most 8.
pub fn within(rt: &impl Print, log: Log<'_>, line: Line<'_>) -> io::Result<()> {
    let mut dots = [b'.'; 8];
    match dots.get_mut(..line.size(1)) {
        None => Ok(()),
        Some(out) => into(rt, log, out),
    }
}

fn into(rt: &impl Print, log: Log<'_>, dots: &mut [u8]) -> io::Result<()> {
    print!(rt; "  {}", Told(log.lookup(1, dots)))?;
    say::dots(rt, dots)
}
