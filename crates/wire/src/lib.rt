// Events and answers read from bytes, without a copy. docs/FORMAT.md has the formats.
#![tactic(auto)]

ghost use Rattle.std.specs.Prelude.{◌≡◌, true};
ghost use Rattle.model.specs.Readable.{readable};
ghost use Rattle.model.specs.Wire.{read as reading, read_answer};
ghost use Rattle.std.specs.Option.{option_map};
ghost use Rattle.wire.specs.Meaning.{event_of, answer_of, EventParts};

mod answers;
mod entries;
mod parts;

pub use parts::{Answer, Entry, Event, Malformed, Refusal};
use reader::Reader;
pub use reader::{Contents, Pointer, Record, Timestamp};

// The event that the bytes are, or where they cease to be one.
pub fn read(bytes: &[u8]) -> Result<Event<'_>, Malformed>
    ensures value { event_of result ≡ reading bytes.now }
    ensures parts { EventParts result }
    ensures fits { readable (event_of result) ≡ true }
{
    let mut reader = Reader { rest: bytes };
    let Some(event) = entries::event(&mut reader) else {
        return Err(Malformed {
            at: bytes.len() - reader.rest.len(),
        });
    };
    let left = reader.rest.len();
    if left > 0 {
        return Err(Malformed {
            at: bytes.len() - left,
        });
    }
    Ok(event)
}

// The answer that the bytes are.
pub fn read_answer(bytes: &[u8]) -> Option<Answer>
    ensures { read_answer bytes.now ≡ option_map answer_of result }
{
    let mut reader = Reader { rest: bytes };
    let answer = answers::answer(&mut reader)?;
    if !reader.rest.is_empty() {
        return None;
    }
    Some(answer)
}
