// What a script may do to a store: fill it, write an entry, change a byte; and whether long data is as written.
use crate::line::Line;
use page::Page;
use std::io;

// Does to a store what a line says, if that is such a change: one arm for each word of a script.
pub fn change(store: &mut [u8], line: Line<'_>) {
    match line.word(0) {
        "fill" => store.fill(line.byte(1)),
        "put" => put(store, line, line.word(3).as_bytes()),
        "mixed" => put_mixed(store, line),
        "byte" => put_byte(store, line),
        _ => {}
    }
}

// "put PAGE ID WORD": writes an entry with these bytes from a page on, if its pages fit.
fn put(store: &mut [u8], line: Line<'_>, bytes: &[u8]) {
    let p = line.size(1);
    let pages = Page::count(store);
    if pages <= p || Page::DATA_END <= bytes.len() {
        return;
    }
    if pages - p < Page::pages_for_data(bytes.len()) {
        return;
    }
    let at = p * Page::SIZE;
    page::write_entry(&mut store[at..], line.number(2), bytes);
}

// Byte i of the long data of an id.
fn mixed(id: u64, i: usize) -> u8 {
    (i % 151) as u8 + (id % 100) as u8
}

// The bytes are those of the long data of an id from a place on.
pub fn is_mixed(bytes: &[u8], id: u64, from: usize) -> bool {
    bytes
        .iter()
        .enumerate()
        .all(|(i, byte)| *byte == mixed(id, from.wrapping_add(i)))
}

// The long data of an id.
pub fn mix(bytes: &mut [u8], id: u64) {
    for (i, byte) in bytes.iter_mut().enumerate() {
        *byte = mixed(id, i);
    }
}

// "mixed PAGE ID N": an entry with n bytes of its id's long data, at most 4,096.
fn put_mixed(store: &mut [u8], line: Line<'_>) {
    let mut bytes = [0; 4096];
    mix(&mut bytes, line.number(2));
    if let Some(data) = bytes.get(..line.size(3)) {
        put(store, line, data);
    }
}

// "byte AT VALUE": one byte over another.
fn put_byte(store: &mut [u8], line: Line<'_>) {
    if let Some(byte) = store.get_mut(line.size(1)) {
        *byte = line.byte(2);
    }
}

// Says the first bytes of an output, as many as an answer says, or of long ones only whether they are as written for the id: n may be more than there are.
pub fn handed(rt: &impl Print, out: &[u8], n: usize, id: u64) -> io::Result<()> {
    match out.get(..n) {
        None => Ok(()),
        Some(bytes) if n <= 16 => rt.write_all(bytes),
        Some(bytes) if is_mixed(bytes, id, 0) => rt.print("as written"),
        Some(_) => rt.print("not as written"),
    }
}
