// The pages of an entry, each byte written once, where it lies.
ghost use Rattle.std.specs.Prelude.{◌≡◌, ◌++◌, ◌-◌, ◌*◌, ◌<◌, ◌≤◌, min, length, replicate, take};
ghost use Rattle.page.specs.Size.{page_size, later_payload, data_end, pages_for_data, started};
ghost use Rattle.page.specs.Write.{overwritten, filled, later_pages, entry_pages};
ghost use Rattle.page.specs.Private.{head_of};

use crate::Page;

// The bytes of an entry before its data: its mark, the length of its payload and its id, high byte first.
fn entry_head(length: usize, id: u64) -> [u8; Page::DATA_START]
    ensures { result ≡ head_of length id }
{
    let mut head = [0; Page::DATA_START];
    head[0] = 1;
    // the last 3 of its 8 bytes
    head[1..Page::PAYLOAD_START].copy_from_slice(&length.to_be_bytes()[8 - Page::LENGTH_SIZE..]);
    head[Page::PAYLOAD_START..].copy_from_slice(&id.to_be_bytes());
    head
}

// Writes a page to the front of `part`: its head, as much of `bytes` as it then holds, and zeros.
fn write_page(part: &mut [u8], head: &[u8], bytes: &[u8])
    requires { (page_size ≤ length part.old) × (length head.now ≤ page_size) }
    ensures { part.new ≡ overwritten part.old (filled (head.now ++ take (page_size - length head.now) bytes.now)) }
{
    let from = head.len();
    let held = bytes.len().min(Page::SIZE - from);
    let end = from + held;
    part[..from].copy_from_slice(head);
    part[from..end].copy_from_slice(&bytes[..held]);
    part[end..Page::SIZE].fill(0);
}

// Writes the later pages of an entry, as many as `bytes` starts.
fn write_rest(part: &mut [u8], bytes: &[u8])
    requires { started later_payload (length bytes.now) * page_size ≤ length part.old }
    ensures { part.new ≡ overwritten part.old (later_pages (started later_payload (length bytes.now)) bytes.now) }
{
    // Kept: an index, since a proof does not know what was written through `chunks_mut`.
    for j in 0..bytes.len().div_ceil(Page::LATER_PAYLOAD) {
        let at = j * Page::SIZE;
        let from = j * Page::LATER_PAYLOAD;
        write_page(&mut part[at..], &[0], &bytes[from..]);
    }
}

// Writes an entry's pages to the front of `part`.
#[tactic(auto, using(crate::proofs::Counting::pages_some, crate::proofs::Heading::length_head))]
pub fn write_entry(part: &mut [u8], id: u64, bytes: &[u8])
    requires { (pages_for_data (length bytes.now) * page_size ≤ length part.old) × (length bytes.now < data_end) }
    ensures { part.new ≡ overwritten part.old (entry_pages id bytes.now) }
{
    let head = entry_head(Page::ID_SIZE + bytes.len(), id);
    write_page(part, &head, bytes);
    if Page::FIRST_DATA < bytes.len() {
        write_rest(&mut part[Page::SIZE..], &bytes[Page::FIRST_DATA..]);
    }
}
