// The page layer (docs/RULES.md 1): the page's numbers, marks, entries read, copied and written.
#![tactic(auto)]

mod copying;
mod entry;
mod marks;
mod writing;

ghost use Rattle.std.specs.Prelude.{◌≡◌, ◌+◌, ◌^◌, ◌<◌};
ghost use Rattle.page.specs.Size.{id_size, pages_for, pages_for_data, page_count};

pub use entry::{Entry, Whole};
pub use marks::Mark;
pub use writing::write_entry;

// A page of a log, by its number. Neither printed nor compared.
#[derive(Clone, Copy)]
pub struct Page<'a> {
    pub log: &'a [u8],
    pub number: usize,
    ghost inside: { number < page_count log.now },
}

impl Page<'_> {
    // Bytes of a page in all.
    pub const SIZE: usize = 1024;

    // Payload bytes on an entry's first page.
    pub const FIRST_PAYLOAD: usize = 1020;

    // Payload bytes on each later page.
    pub const LATER_PAYLOAD: usize = 1023;

    // Bytes of a payload's length, which come after the mark.
    pub const LENGTH_SIZE: usize = 3;

    // Bytes of an id, which begins the payload.
    pub const ID_SIZE: usize = 8;

    // Where the payload begins on an entry's first page.
    pub const PAYLOAD_START: usize = 1 + Self::LENGTH_SIZE;

    // Where the data begins on an entry's first page.
    pub const DATA_START: usize = Self::PAYLOAD_START + Self::ID_SIZE;

    // Data bytes on an entry's first page.
    pub const FIRST_DATA: usize = Self::FIRST_PAYLOAD - Self::ID_SIZE;

    // The first payload length that its bytes do not hold.
    pub const PAYLOAD_END: usize = 0x100_0000;

    // The data bytes of that payload.
    pub const DATA_END: usize = Self::PAYLOAD_END - Self::ID_SIZE;

    // The pages of a payload of n bytes.
    #[tactic(auto, using(crate::proofs::Counting::pages_linear))]
    pub fn pages_for(n: usize) -> usize
        ensures { result ≡ pages_for n }
    {
        if n <= Self::FIRST_PAYLOAD {
            return 1;
        }
        1 + (n - Self::FIRST_PAYLOAD).div_ceil(Self::LATER_PAYLOAD)
    }

    // The pages of n data bytes.
    pub fn pages_for_data(n: usize) -> usize
        requires { id_size + n < 2 ^ 64 }
        ensures { result ≡ pages_for_data n }
    {
        Self::pages_for(Self::ID_SIZE + n)
    }

    // The whole pages of a log.
    pub fn count(log: &[u8]) -> usize
        ensures { result ≡ page_count log.now }
    {
        log.len() / Self::SIZE
    }
}
