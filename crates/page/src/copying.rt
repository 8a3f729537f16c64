// An entry's data, gathered from its pages: as many bytes as the part that is lent for them.
ghost use Rattle.std.specs.Prelude.{◌≡◌, ◌+◌, ◌*◌, ◌≤◌, length};
ghost use Rattle.page.specs.Size.{page_size, data_start, pages_for_data, page_count};
ghost use Rattle.page.specs.Data.{data_of, data_at};
ghost use Rattle.page.specs.Private.{data_from};

use crate::Page;

// Copies the data; `part` is the part of the log from where the entry's data begins.
fn copy_from(part: &[u8], out: &mut [u8])
    requires { pages_for_data (length out.old) * page_size ≤ data_start + length part.now }
    ensures { out.new ≡ data_from part.now (length out.old) }
{
    // counted by hand: the first run is shorter than the others and a mark stands between two, which chunks of pages would say twice
    let mut at = 0;
    for byte in out {
        // a page begins here: its mark is no data
        if at % Page::SIZE == Page::FIRST_DATA {
            at += 1;
        }
        *byte = part[at];
        at += 1;
    }
}

// Hands the part from where the data begins on to the copier; `part` is the part of the log from the entry's start page.
#[tactic(auto, using(crate::proofs::Counting::pages_some))]
fn copy_entry(part: &[u8], out: &mut [u8])
    requires { pages_for_data (length out.old) * page_size ≤ length part.now }
    ensures { out.new ≡ data_of part.now (length out.old) }
{
    copy_from(&part[Page::DATA_START..], out);
}

impl Page<'_> {
    // Copies the data of the entry that starts at the page.
    pub fn copy_data(self, out: &mut [u8])
        requires { self.number + pages_for_data (length out.old) ≤ page_count self.log.now }
        ensures { out.new ≡ data_at self.entry.log.now self.entry.number (length out.old) }
    {
        let at = self.number * Page::SIZE;
        copy_entry(&self.log[at..], out);
    }
}
