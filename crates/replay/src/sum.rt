// A number for bytes, after a number for those before them: as the list gives it.
pub fn of_bytes(before: u64, bytes: &[u8]) -> u64 {
    bytes
        .iter()
        .fold(before, |sum, byte| sum.rotate_left(5) ^ u64::from(*byte))
}

// The first n bytes, all if there are fewer: n is an answer's length, and may be more.
pub fn of_front(before: u64, bytes: &[u8], n: u64) -> u64 {
    of_bytes(before, bytes.get(..n as usize).unwrap_or(bytes))
}

// A number's eight bytes, high byte first.
pub fn of_number(before: u64, n: u64) -> u64 {
    of_bytes(before, &n.to_be_bytes())
}
