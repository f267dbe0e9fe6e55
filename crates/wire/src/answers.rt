// Answers, by the number of their kind.
ghost use Rattle.std.specs.Prelude.{◌≡◌};
ghost use Rattle.std.specs.Option.{option_map};
ghost use Rattle.model.specs.Wire.{reads_answer_fields, reads_answer};
ghost use Rattle.reader.specs.Meaning.{out};
ghost use Rattle.wire.specs.Meaning.{answer_of};

use crate::Answer;
use reader::Reader;

// How many kinds there are, and how many values a byte has.
const KINDS: u16 = 4;

const BYTES: u16 = 256;

// What follows the number of the kind.
fn fields(reader: &mut Reader<'_>, kind: u8) -> Option<Answer>
    ensures { reads_answer_fields kind reader.old.rest.now ≡ out (option_map answer_of result) reader.new.rest.now }
{
    // The format's table of kinds: an enum in between would list the same names twice.
    match kind {
        0 => {
            let refusal = reader.tag(BYTES)?;
            let place = reader.number()?;
            Some(Answer::Refused(refusal, place))
        }
        1 => Some(Answer::Wrong),
        2 => Some(Answer::Right),
        _ => {
            let epochs = reader.number()?;
            Some(Answer::Certified(epochs))
        }
    }
}

pub fn answer(reader: &mut Reader<'_>) -> Option<Answer>
    ensures { reads_answer reader.old.rest.now ≡ out (option_map answer_of result) reader.new.rest.now }
{
    let kind = reader.tag(KINDS)?;
    fields(reader, kind)
}
