// One event after the other, answered. No entry can be done yet: an event is refused as malformed, or as one that can't be done.
#![tactic(auto)]

ghost use Rattle.std.specs.Prelude.{◌≡◌, false, ℕ};
ghost use Rattle.model.specs.Monitor.{Limits, State, malformed, answer as answering};
ghost use Rattle.model.specs.Wire.{read as reading};
ghost use Rattle.wire.specs.Meaning.{answer_of};

use wire::{Answer, Malformed, Refusal, read};

// The answer to an event of these bytes: what the rules answer, in any state, under limits that support no entry.
pub fn answer(event: &[u8]) -> Answer
    ensures { (l : Limits) (s : State) → ((k : ℕ) → l.supports k ≡ false) → answer_of result ≡ answering l s (reading event.now) }
{
    match read(event) {
        Err(Malformed { at }) => Answer::Refused(Refusal::Malformed.into(), at as u64),
        Ok(_) => Answer::Refused(Refusal::OutOfRange.into(), 0),
    }
}

// A length is a `usize`, and a place in an answer a `u64`, between which no From stands.

// The answer to an event that the log's end cuts short after `len` bytes: it is malformed at its end.
pub fn answer_cut(len: usize) -> Answer
    ensures { (l : Limits) (s : State) → answer_of result ≡ answering l s (malformed len) }
{
    Answer::Refused(Refusal::Malformed.into(), len as u64)
}
