// The id sequence, over 64 lent words that may hold anything. Refusals, kinds and flags are numbers here: the structs are C's.
ghost use Rattle.std.specs.Prelude.{◌≡◌};
ghost use Rattle.sequence.specs.Sequence.{new_of, note_of, complete_of, paper_noted};
ghost use Rattle.awirbesh.specs.Sequence.{sequence_from, sequence_numbers, noted_numbers, yes_number};

use refusal::Refusal;
use sequence::IdSequence;

#[repr(C)]
#[derive(Clone, Copy)]
pub struct SequenceNumbers {
    pub start: u64,
    pub after: u64,
}

#[repr(C)]
#[derive(Clone, Copy)]
pub struct NotedNumbers {
    pub number: u64,
    pub sequence: SequenceNumbers,
}

impl From<SequenceNumbers> for IdSequence {
    ghost from_gives = { λ n s. s ≡ sequence_from n };

    fn from(numbers: SequenceNumbers) -> Self {
        Self {
            start: numbers.start,
            after: numbers.after,
        }
    }
}

impl From<IdSequence> for SequenceNumbers {
    ghost from_gives = { λ s n. n ≡ sequence_numbers s };

    fn from(ids: IdSequence) -> Self {
        Self {
            start: ids.start,
            after: ids.after,
        }
    }
}

impl NotedNumbers {
    // A refusal leaves the sequence as it was given, so this takes two values and is no `From`.
    fn new(given: SequenceNumbers, noted: Result<IdSequence, Refusal>) -> Self
        ensures { result ≡ noted_numbers given (paper_noted noted) }
    {
        match noted {
            Ok(ids) => Self {
                number: 0,
                sequence: ids.into(),
            },
            Err(refusal) => Self {
                number: refusal.number(),
                sequence: given,
            },
        }
    }
}

#[unsafe(no_mangle)]
pub extern "C" fn awirbesh_sequence_new(start: u64) -> SequenceNumbers
    ensures { result ≡ sequence_numbers (new_of start) }
{
    IdSequence::new(start).into()
}

#[unsafe(no_mangle)]
pub extern "C" fn awirbesh_sequence_note(
    words: &mut [u64; 64],
    sequence: SequenceNumbers,
    id: u64,
) -> NotedNumbers
    ensures value { result ≡ noted_numbers sequence (note_of (sequence_from sequence) words.old id).answer }
    ensures words_after { words.new ≡ (note_of (sequence_from sequence) words.old id).words }
{
    NotedNumbers::new(sequence, IdSequence::from(sequence).note(words, id))
}

// 1 for yes, 0 for no.
#[unsafe(no_mangle)]
pub extern "C" fn awirbesh_sequence_complete(sequence: SequenceNumbers) -> u64
    ensures { result ≡ yes_number (complete_of (sequence_from sequence)) }
{
    u64::from(IdSequence::from(sequence).complete())
}
