// The page layer: page counts, and the two pages of the hello case.
ghost use Rattle.std.specs.Prelude.{◌≡◌, ◌≤◌, length};

use crate::say;
use page::Page;
use std::io;

// An array whose every byte can be told from what is written.
pub fn marked<const N: usize>() -> [u8; N]
    ensures { length result ≡ N }
{
    [0xff; N]
}

// Where the zeros at the end begin.
fn zeros_from(bytes: &[u8]) -> usize
    ensures { result ≤ length bytes.now }
{
    bytes
        .iter()
        .rposition(|byte| *byte != 0)
        .map_or(0, |i| i + 1)
}

// The bytes of a page up to the last that is not zero, and how many zeros come after them.
pub fn show(rt: &impl Print, page: &[u8]) -> io::Result<()> {
    let (front, zeros) = page.split_at(zeros_from(page));
    say::hex(rt, front)?;
    println!(rt; "and {} zeros", zeros.len())
}

fn count(rt: &impl Print, n: usize) -> io::Result<()> {
    println!(rt; "a payload of {n} bytes takes {} pages", Page::pages_for(n))
}

fn hello_and_none(rt: &impl Print) -> io::Result<()> {
    let mut first = marked::<1024>();
    let mut second = marked::<1024>();
    page::write_entry(&mut first, 1, b"hello");
    page::write_entry(&mut second, 2, b"");
    rt.print("the page of (1, hello): ")?;
    show(rt, &first)?;
    rt.print("the page of (2, none): ")?;
    show(rt, &second)
}

pub fn run(rt: &impl Print) -> io::Result<()> {
    for n in [8, 1020, 1021, 2043, 2044, 3000, 16777215] {
        count(rt, n)?;
    }
    hello_and_none(rt)
}
