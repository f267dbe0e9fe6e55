// What answers the events of a log.
ghost use Rattle.std.specs.Prelude.{ℕ, List, OnOk, IfOk};
ghost use Rattle.logfile.specs.declared.limits.Limits.{Limits};
ghost use Rattle.wire.specs.declared.parts.Answer.{Answer};

use logfile::Limits;
use std::alloc::{AllocError, Global};
use wire::Answer;

// Why no monitor can be opened for a log's limits.
#[derive(Clone, Copy, Debug, PartialEq, Eq)]
pub enum OpenError {
    NoMemory,
    OutOfRange,
}

impl From<AllocError> for OpenError {
    fn from(_e: AllocError) -> OpenError {
        OpenError::NoMemory
    }
}

pub trait Monitor: Drop + Sized {
    // What a monitor is that was opened for limits with a key.
    ghost opened: { Limits → List ℕ → Self → Type 0 };

    // What an event does: the monitor before it, its bytes, the answer and the monitor after it.
    ghost answers: { Self → List ℕ → Answer → Self → Type 0 };

    // The same of an event that the log's end cuts short after so many bytes.
    ghost answers_cut: { Self → ℕ → Answer → Self → Type 0 };

    fn open(alloc: Global, limits: Limits, key: &[u8; 32]) -> Result<Self, OpenError>
        ensures { IfOk result (λ m. opened limits key.now m) };

    fn take(&mut self, event: &[u8]) -> Answer
        ensures { answers self.old event.now result self.new };

    fn take_cut(&mut self, len: usize) -> Answer
        ensures { answers_cut self.old len result self.new };
}
