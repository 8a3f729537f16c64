// How each kind of answer is told.
use catalog::{Look, Recovered, State};
use pushing::Pushed;
use refusal::Refusal;
use sequence::IdSequence;
use std::{fmt, io};

// An answer in words. Never compared.
#[derive(Clone, Copy)]
pub struct Told<T>(pub T);

impl fmt::Display for Told<State> {
    fn fmt<W: fmt::Write>(&self, f: &mut fmt::Formatter<W>) -> fmt::Result {
        let s = self.0;
        write!(
            f,
            "state {}, {}, {}, {}",
            s.length, s.last, s.next, s.ceiling
        )
    }
}

// The words before the page or the length that a refusal names.
fn naming(refusal: Refusal) -> Option<&'static str> {
    match refusal {
        Refusal::BadMark { .. }
        | Refusal::ShortEntry { .. }
        | Refusal::CutEntry { .. }
        | Refusal::NoEntries { .. }
        | Refusal::Overlap { .. }
        | Refusal::NotAscending { .. } => Some(" at page "),
        Refusal::BufferSmall { .. } => Some(", needs "),
        _ => None,
    }
}

// A refusal as the rules name it: its number, and the page or length.
impl fmt::Display for Told<Refusal> {
    fn fmt<W: fmt::Write>(&self, f: &mut fmt::Formatter<W>) -> fmt::Result {
        write!(f, "refusal {}", self.0.number())?;
        match naming(self.0) {
            None => Ok(()),
            Some(words) => write!(f, "{words}{}", self.0.value()),
        }
    }
}

impl fmt::Display for Told<Option<Refusal>> {
    fn fmt<W: fmt::Write>(&self, f: &mut fmt::Formatter<W>) -> fmt::Result {
        match self.0 {
            None => f.write_str("no refusal"),
            Some(refusal) => Told(refusal).fmt(f),
        }
    }
}

impl<T: Copy> fmt::Display for Told<Result<T, Refusal>>
where
    Told<T>: fmt::Display,
{
    fn fmt<W: fmt::Write>(&self, f: &mut fmt::Formatter<W>) -> fmt::Result {
        match self.0 {
            Ok(value) => Told(value).fmt(f),
            Err(refusal) => Told(refusal).fmt(f),
        }
    }
}

// What a sound check answers.
impl fmt::Display for Told<()> {
    fn fmt<W: fmt::Write>(&self, f: &mut fmt::Formatter<W>) -> fmt::Result {
        f.write_str("sound")
    }
}

// Where a scan begins.
impl fmt::Display for Told<u64> {
    fn fmt<W: fmt::Write>(&self, f: &mut fmt::Formatter<W>) -> fmt::Result {
        write!(f, "at {}", self.0)
    }
}

impl fmt::Display for Told<Look> {
    fn fmt<W: fmt::Write>(&self, f: &mut fmt::Formatter<W>) -> fmt::Result {
        match self.0 {
            Look::Found { position, length } => write!(f, "found at {position}, {length} bytes"),
            Look::Absent { position } => write!(f, "absent at {position}"),
        }
    }
}

impl fmt::Display for Told<Recovered> {
    fn fmt<W: fmt::Write>(&self, f: &mut fmt::Formatter<W>) -> fmt::Result {
        let it = self.0;
        write!(
            f,
            "excess {}, dropped {}, {}",
            it.excess,
            it.dropped,
            Told(it.state)
        )
    }
}

impl fmt::Display for Told<Pushed> {
    fn fmt<W: fmt::Write>(&self, f: &mut fmt::Formatter<W>) -> fmt::Result {
        let it = self.0;
        write!(
            f,
            "{} written, {}; {}",
            it.written,
            Told(it.reason),
            Told(it.state)
        )
    }
}

impl fmt::Display for Told<IdSequence> {
    fn fmt<W: fmt::Write>(&self, f: &mut fmt::Formatter<W>) -> fmt::Result {
        f.write_str(if self.0.complete() {
            "complete yes"
        } else {
            "complete no"
        })
    }
}

// Bytes in hexadecimal digits, with a space after each.
pub fn hex(rt: &impl Print, bytes: &[u8]) -> io::Result<()> {
    for byte in bytes {
        print!(rt; "{byte:02x} ")?;
    }
    Ok(())
}

// What an output that held dots holds now, if it is short, and the line's end.
pub fn dots(rt: &impl Print, out: &[u8]) -> io::Result<()> {
    if out.len() <= 8 {
        rt.print(": ")?;
        rt.write_all(out)?;
    }
    rt.println("")
}
