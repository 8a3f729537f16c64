// Refusal 1: which stores, lengths and cursors are good.
ghost use Rattle.std.specs.Prelude.{◌≡◌};
ghost use Rattle.catalog.specs.Bounds.{too_long, bad_state, bad_cursor};

use page::Page;

// The most bytes of a store.
const MOST: u64 = 0x8000_0000;

// The store is longer than 2^31 bytes, or the length is above its size.
#[tactic(auto, unfolding(crate::specs::Bounds::too_long))]
pub fn is_too_long(store: &[u8], length: u64) -> bool
    ensures { result ≡ too_long store.now length }
{
    let size = store.len() as u64;
    MOST < size || size < length
}

// Refusal 1 of a state's length.
#[tactic(auto, unfolding(crate::specs::Bounds::bad_state))]
pub fn is_bad_state(store: &[u8], length: u64) -> bool
    ensures { result ≡ bad_state store.now length }
{
    is_too_long(store, length) || !length.is_multiple_of(Page::SIZE as u64)
}

// Refusal 1 of a scan's cursor in a log of so many bytes.
#[tactic(auto, unfolding(crate::specs::Bounds::bad_cursor))]
pub fn is_bad_cursor(length: u64, cursor: u64) -> bool
    ensures { result ≡ bad_cursor length cursor }
{
    length < cursor || !cursor.is_multiple_of(Page::SIZE as u64)
}
