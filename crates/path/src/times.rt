// Timestamps, and their order with paths.
ghost use Rattle.std.specs.Prelude.{◌≡◌, ◌+◌, ◌-◌, ◌^◌, MatchOption};
ghost use Rattle.model.specs.Verifier.{earlier, earlier_with, just_after};
ghost use Rattle.path.specs.Packs.{path_in};
ghost use Rattle.path.specs.Times.{timestamp_of};

use crate::Path;

// The order of the fields is the order of timestamps.
#[derive(Clone, Copy, Debug, PartialEq, Eq, PartialOrd, Ord)]
pub struct Timestamp {
    pub epoch: u64,
    pub counter: u64,
}

impl Timestamp {
    pub fn is_earlier(self, other: Timestamp) -> bool
        ensures { result ≡ earlier (timestamp_of self) (timestamp_of other) }
    {
        self < other
    }

    // The next timestamp of the epoch, unless there is none.
    pub fn just_after(self) -> Option<Timestamp>
        ensures { MatchOption result (self.counter ≡ 2 ^ 64 - 1) (λ t. timestamp_of t ≡ just_after (timestamp_of self)) }
    {
        let counter = self.counter.checked_add(1)?;
        Some(Timestamp { counter, ..self })
    }

    // Is this timestamp with a path before that one with its path?
    pub fn is_earlier_with(self, path: &Path, other: Timestamp, other_path: &Path) -> bool
        ensures { result ≡ earlier_with (timestamp_of self) (path_in path.now.len path.now.bits) (timestamp_of other) (path_in other_path.now.len other_path.now.bits) }
    {
        self.is_earlier(other) || (self == other && path.is_before(other_path))
    }
}
