// What starts at a page: an entry's header, and where its pages end.
ghost use Rattle.std.specs.Prelude.{◌≡◌, ◌+◌, ◌<◌, ◌≤◌, length};
ghost use Rattle.page.specs.Size.{length_size, id_size, payload_start, data_start, payload_end, page_count};
ghost use Rattle.page.specs.Bytes.{number_at};
ghost use Rattle.page.specs.Entry.{entry_at, paper_entry, whole_of};

use crate::Page;
use refusal::Refusal;

// What an entry's first page says of it: the payload's length and the id. Neither printed nor compared.
#[derive(Clone, Copy)]
struct Header {
    length: usize,
    id: u64,
}

impl Header {
    // `part` is the part of the log from the entry's start page.
    fn read(part: &[u8]) -> Header
        requires { data_start ≤ length part.now }
        ensures { (result.length ≡ number_at part.now 1 length_size) × (result.id ≡ number_at part.now payload_start id_size) × (result.length < payload_end) }
    {
        // a zero before its 3 bytes makes the length a u32
        let mut length = [0; 4];
        length[1..].copy_from_slice(&part[1..Page::PAYLOAD_START]);
        let mut id = [0; Page::ID_SIZE];
        id.copy_from_slice(&part[Page::PAYLOAD_START..Page::DATA_START]);
        Header {
            length: u32::from_be_bytes(length) as usize,
            id: u64::from_be_bytes(id),
        }
    }
}

// An entry whose pages are all there: its id, the length of its data and the page after it.
#[derive(Clone, Copy, Debug, PartialEq, Eq)]
pub struct Whole {
    pub id: u64,
    pub length: usize,
    pub after: usize,
}

// What starts at a page: too short for an id, an entry whose pages run past the log's whole pages, or a whole one.
#[derive(Clone, Copy, Debug, PartialEq, Eq)]
pub enum Entry {
    Short,
    Cut { id: u64 },
    Whole(Whole),
}

impl Page<'_> {
    // What starts at the page. The mark is not read: of a page that is no start the answer is what the same bytes of a start would say.
    #[tactic(auto, using(crate::proofs::Starting::reads_short))]
    pub fn entry(self) -> Entry
        ensures { paper_entry result ≡ entry_at self.entry.log.now self.entry.number }
    {
        let at = self.number * Page::SIZE;
        let header = Header::read(&self.log[at..]);
        let payload = header.length;
        let id = header.id;
        if payload < Page::ID_SIZE {
            return Entry::Short;
        }
        let after = self.number + Page::pages_for(payload);
        if Page::count(self.log) < after {
            return Entry::Cut { id };
        }
        Entry::Whole(Whole {
            id,
            length: payload - Page::ID_SIZE,
            after,
        })
    }

    // The whole entry that starts at the page; refusal 6 or 7 if there is none.
    pub fn whole(self) -> Result<Whole, Refusal>
        ensures { result ≡ whole_of self.entry.number (entry_at self.entry.log.now self.entry.number) }
    {
        let page = self.number as u64;
        match self.entry() {
            Entry::Short => Err(Refusal::ShortEntry { page }),
            Entry::Cut { id: _ } => Err(Refusal::CutEntry { page }),
            Entry::Whole(whole) => Ok(whole),
        }
    }
}
