// Events written field by field, once it is known that there is room.
ghost use Rattle.std.specs.Prelude.{◌≡◌, ◌≤◌};
ghost use Rattle.model.specs.Monitor.{logged};
ghost use Rattle.model.specs.Readable.{readable};
ghost use Rattle.model.specs.Wire.{event_bytes};
ghost use Rattle.wire.specs.Meaning.{entry_of};
ghost use Rattle.wire_write.specs.Page.{page_of, left};
ghost use Rattle.wire_write.specs.Written.{with_entry, entry_room, Writes};

use crate::lengths::event_len;
use crate::writer::Writer;
use wire::Entry;

fn put_entry(w: &mut Writer<'_>, entry: Entry<'_>)
    requires { entry_room (entry_of entry) ≤ left w.old }
    ensures same { w.new.to.ghost_name ≡ w.old.to.ghost_name }
    ensures written { page_of w.new ≡ with_entry (page_of w.old) (entry_of entry.entry) }
{
    w.byte(entry.code());
    match entry {
        Entry::AddMerkle { record, above } => {
            w.record(record);
            w.sized(above);
        }
        Entry::AddBlum {
            record,
            timestamp,
            verifier,
            ..
        } => {
            w.record(record);
            w.timestamp(timestamp);
            w.number(verifier);
        }
        Entry::EvictMerkle { path, above } => {
            w.sized(path);
            w.sized(above);
        }
        Entry::EvictBlum { path, timestamp } => {
            w.sized(path);
            w.timestamp(timestamp);
        }
        Entry::EvictBlumMerkle {
            path,
            above,
            timestamp,
        } => {
            w.sized(path);
            w.sized(above);
            w.timestamp(timestamp);
        }
        Entry::NextEpoch | Entry::VerifyEpoch => {}
        Entry::Get { key, value } => {
            w.sized(key);
            w.value(value);
        }
        Entry::Set { key, value } => {
            w.sized(key);
            w.sized(value);
        }
    }
}

// The event at the front of `to`, and how many bytes it has. `None`, and `to` as it was, where `to` is shorter or a text is longer than 65,535.
pub fn write_event(to: &mut [u8], verifier: u64, entry: Entry<'_>) -> Option<usize>
    ensures { Writes (readable (logged verifier (entry_of entry.entry))) (event_bytes verifier (entry_of entry.entry)) to.old to.new result }
{
    let len = event_len(verifier, entry)?;
    if to.len() < len {
        return None;
    }
    let mut w = Writer::new(to);
    w.number(verifier);
    put_entry(&mut w, entry);
    Some(w.at)
}
