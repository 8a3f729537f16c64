// A line of a script: words and numbers, with a space between two.
use std::str::Split;

// A line's text. Neither printed nor compared.
#[derive(Clone, Copy)]
pub struct Line<'a>(pub &'a str);

impl<'a> Line<'a> {
    pub fn words(self) -> Split<'a, char> {
        self.0.split(' ')
    }

    // Word k, or nothing where there are fewer.
    pub fn word(self, k: usize) -> &'a str {
        self.words().nth(k).unwrap_or("")
    }

    // The number that word k is.
    pub fn number(self, k: usize) -> u64 {
        number(self.word(k))
    }

    // The same for a length, or for a place in a slice.
    pub fn size(self, k: usize) -> usize {
        self.number(k) as usize
    }

    // The same for a byte.
    pub fn byte(self, k: usize) -> u8 {
        (self.number(k) % 256) as u8
    }

    // What is left after the first word.
    pub fn rest(self) -> Line<'a> {
        Line(self.0.split_once(' ').unwrap_or((self.0, "")).1)
    }
}

// The number that a word is, or 0 for a word that is none.
pub fn number(word: &str) -> u64 {
    word.parse().unwrap_or(0)
}
