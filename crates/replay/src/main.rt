// Replays the Rust's answers, from the list in data/: `answers` says of each call what nebari gave.
#![tactic(auto)]

mod line;
mod play;
mod sum;

use play::{Lent, World};
use std::fs::File;
use std::io;
use std::io::{ErrorKind, Read};

// Whether another whole line was read.
fn read_line(list: &mut impl Read, bytes: &mut [u8; 136]) -> io::Result<bool> {
    match list.read_exact(bytes) {
        Ok(()) => Ok(true),
        Err(e) if e.kind() == ErrorKind::UnexpectedEof => Ok(false),
        Err(e) => Err(e),
    }
}

fn replay(list: &mut impl Read, lent: &mut Lent) -> io::Result<World> {
    let mut bytes = [0; 136];
    let mut world = World::new();
    for _ in 0..1000000 {
        if !read_line(list, &mut bytes)? {
            break;
        }
        world.play(lent, line::read(&bytes));
    }
    Ok(world)
}

fn main(rt: HostRuntime) -> io::Result<()> {
    let mut list = File::open(&rt, "answers")?;
    let mut lent = Lent {
        store: [0; 65536],
        pattern: [0; 65536],
        out: [0; 65536],
        ids: [0; 16],
        ends: [0; 16],
        words: [0; 64],
    };
    let world = replay(&mut list, &mut lent)?;
    println!(rt;
        "{} answers of the Rust replayed, {} differ",
        world.compared, world.wrong
    )
}
