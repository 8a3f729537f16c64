// The refusals (docs/RULES.md 3), each with what it names.
#![tactic(auto)]

ghost use Rattle.std.specs.Prelude.{◌≡◌};
ghost use Rattle.refusal.specs.Refusal.{number_of, value_of};

#[derive(Clone, Copy, Debug, PartialEq, Eq)]
pub enum Refusal {
    BadState,
    OutOfOrder,
    TooLarge,
    NoRoom,
    BadMark { page: u64 },
    ShortEntry { page: u64 },
    CutEntry { page: u64 },
    NoEntries { page: u64 },
    IdsUsedUp,
    BufferSmall { needed: u64 },
    BelowStart,
    OutsideWindow,
    BadBatch,
    Overlap { page: u64 },
    NotAscending { page: u64 },
    ValueTooLarge,
    CeilingReached,
    BadRaise,
}

impl Refusal {
    // The number that the rules give the refusal.
    pub fn number(self) -> u64
        ensures { result ≡ number_of self }
    {
        match self {
            Refusal::BadState => 1,
            Refusal::OutOfOrder => 2,
            Refusal::TooLarge => 3,
            Refusal::NoRoom => 4,
            Refusal::BadMark { page: _ } => 5,
            Refusal::ShortEntry { page: _ } => 6,
            Refusal::CutEntry { page: _ } => 7,
            Refusal::NoEntries { page: _ } => 8,
            Refusal::IdsUsedUp => 9,
            Refusal::BufferSmall { needed: _ } => 10,
            Refusal::BelowStart => 11,
            Refusal::OutsideWindow => 12,
            Refusal::BadBatch => 13,
            Refusal::Overlap { page: _ } => 14,
            Refusal::NotAscending { page: _ } => 15,
            Refusal::ValueTooLarge => 16,
            Refusal::CeilingReached => 30,
            Refusal::BadRaise => 31,
        }
    }

    // The page or the length that the refusal names; 0 where it names none. Kept: `value_of` and C have a number there.
    pub fn value(self) -> u64
        ensures { result ≡ value_of self }
    {
        match self {
            Refusal::BadState => 0,
            Refusal::OutOfOrder => 0,
            Refusal::TooLarge => 0,
            Refusal::NoRoom => 0,
            Refusal::BadMark { page } => page,
            Refusal::ShortEntry { page } => page,
            Refusal::CutEntry { page } => page,
            Refusal::NoEntries { page } => page,
            Refusal::IdsUsedUp => 0,
            Refusal::BufferSmall { needed } => needed,
            Refusal::BelowStart => 0,
            Refusal::OutsideWindow => 0,
            Refusal::BadBatch => 0,
            Refusal::Overlap { page } => page,
            Refusal::NotAscending { page } => page,
            Refusal::ValueTooLarge => 0,
            Refusal::CeilingReached => 0,
            Refusal::BadRaise => 0,
        }
    }
}
