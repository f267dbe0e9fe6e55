// Answers written at the front of a slice: `None`, and the slice as it was, where it is too short.
ghost use Rattle.std.specs.Prelude.{true, [], ◌∷◌};
ghost use Rattle.model.specs.Monitor.{refused, certified};
ghost use Rattle.model.specs.Wire.{answer_bytes, readable_answer};
ghost use Rattle.wire.specs.Meaning.{answer_of};
ghost use Rattle.wire_write.specs.Written.{Writes};

use crate::writer::Writer;
use wire::Answer;

fn write_refused(to: &mut [u8], refusal: u8, place: u64) -> Option<usize>
    ensures { Writes (readable_answer (refused refusal place)) (answer_bytes (refused refusal place)) to.old to.new result }
{
    if to.len() < 10 {
        return None;
    }
    let mut w = Writer::new(to);
    w.byte(0);
    w.byte(refusal);
    w.number(place);
    Some(w.at)
}

fn write_certified(to: &mut [u8], epochs: u64) -> Option<usize>
    ensures { Writes (readable_answer (certified epochs)) (answer_bytes (certified epochs)) to.old to.new result }
{
    if to.len() < 9 {
        return None;
    }
    let mut w = Writer::new(to);
    w.byte(3);
    w.number(epochs);
    Some(w.at)
}

// An answer that is only its kind.
fn write_kind(to: &mut [u8], kind: u8) -> Option<usize>
    ensures { Writes true (kind ∷ []) to.old to.new result }
{
    if to.is_empty() {
        return None;
    }
    let mut w = Writer::new(to);
    w.byte(kind);
    Some(w.at)
}

// The answer at the front of `to`, and how many bytes it has.
pub fn write_answer(to: &mut [u8], answer: Answer) -> Option<usize>
    ensures { Writes (readable_answer (answer_of answer)) (answer_bytes (answer_of answer)) to.old to.new result }
{
    match answer {
        Answer::Refused(refusal, place) => write_refused(to, refusal, place),
        Answer::Wrong => write_kind(to, 1),
        Answer::Right => write_kind(to, 2),
        Answer::Certified(epochs) => write_certified(to, epochs),
    }
}
