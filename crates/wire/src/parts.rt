// What events and answers are read into. Paths, keys and values are parts of the input.
ghost use Rattle.std.specs.Prelude.{◌≡◌, Some};
ghost use Rattle.model.specs.Monitor.{entry_code};
ghost use Rattle.wire.specs.Meaning.{entry_of, refusal_code, answer_text};

use reader::{Record, Timestamp};
use std::fmt;

#[derive(Clone, Copy)]
pub enum Entry<'a> {
    // `above` is the path of the node above, here and below
    AddMerkle {
        record: Record<'a>,
        above: &'a [u8],
    },
    // `element` is the part of the input that is summed, if the verifier is below 256
    AddBlum {
        record: Record<'a>,
        timestamp: Timestamp,
        verifier: u64,
        element: &'a [u8],
    },
    EvictMerkle {
        path: &'a [u8],
        above: &'a [u8],
    },
    EvictBlum {
        path: &'a [u8],
        timestamp: Timestamp,
    },
    EvictBlumMerkle {
        path: &'a [u8],
        above: &'a [u8],
        timestamp: Timestamp,
    },
    NextEpoch,
    VerifyEpoch,
    Get {
        key: &'a [u8],
        value: Option<&'a [u8]>,
    },
    Set {
        key: &'a [u8],
        value: &'a [u8],
    },
}

impl Entry<'_> {
    // The code that an entry begins with.
    #[tactic(auto, unfolding(model::specs::Monitor::entry_code))]
    pub fn code(self) -> u8
        ensures { result ≡ entry_code (entry_of self.entry) }
    {
        match self {
            Entry::AddMerkle { .. } => 0,
            Entry::AddBlum { .. } => 1,
            Entry::EvictMerkle { .. } => 2,
            Entry::EvictBlum { .. } => 3,
            Entry::EvictBlumMerkle { .. } => 4,
            Entry::NextEpoch => 5,
            Entry::VerifyEpoch => 6,
            Entry::Get { .. } => 7,
            Entry::Set { .. } => 8,
        }
    }
}

// A verifier, and its next entry.
#[derive(Clone, Copy)]
pub struct Event<'a> {
    pub verifier: u64,
    pub entry: Entry<'a>,
}

// Why bytes are no event: at this place, counted in bytes, is the first that no event has there.
#[derive(Clone, Copy, Debug, PartialEq, Eq)]
pub struct Malformed {
    pub at: usize,
}

// Why an event is refused.
#[derive(Clone, Copy, Debug, PartialEq, Eq)]
pub enum Refusal {
    Malformed,
    OutOfRange,
    Stopped,
    Full,
    TooFarAhead,
}

// The number of it in the fixed list of refusals.
impl From<Refusal> for u8 {
    ghost from_gives = { λ r n. n ≡ refusal_code r };

    fn from(refusal: Refusal) -> u8 {
        match refusal {
            Refusal::Malformed => 1,
            Refusal::OutOfRange => 2,
            Refusal::Stopped => 3,
            Refusal::Full => 4,
            Refusal::TooFarAhead => 5,
        }
    }
}

#[derive(Clone, Copy, Debug, PartialEq, Eq)]
pub enum Answer {
    // which refusal, and a place; the number is kept as it stands in the format, where any byte can be read
    Refused(u8, u64),
    Wrong,
    Right,
    // how many epochs
    Certified(u64),
}

// An answer as one line has it.
impl fmt::Display for Answer {
    ghost output = { λ a. Some (answer_text a) };

    fn fmt<W: fmt::Write>(&self, f: &mut fmt::Formatter<W>) -> fmt::Result {
        match self {
            Answer::Refused(refusal, place) => write!(f, "refused {refusal} {place}"),
            Answer::Wrong => f.write_str("wrong"),
            Answer::Right => f.write_str("right"),
            Answer::Certified(epochs) => write!(f, "certified {epochs}"),
        }
    }
}
