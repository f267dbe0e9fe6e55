// Entries and events, each field after the other.
ghost use Rattle.std.specs.Prelude.{◌≡◌, IfSome};
ghost use Rattle.std.specs.Option.{option_map};
ghost use Rattle.model.specs.Wire.{reads_add_merkle, reads_add_blum, reads_evict_merkle, reads_evict_blum, reads_evict_blum_merkle, reads_get, reads_set, reads_fields, reads_entry, reads_event};
ghost use Rattle.reader.specs.Meaning.{out};
ghost use Rattle.wire.specs.Meaning.{entry_of, logged_of, EntryParts};

use crate::{Entry, Event};
use reader::{Reader, byte_len};

// How many codes there are.
const CODES: u16 = 9;

fn add_merkle<'a>(reader: &mut Reader<'a>) -> Option<Entry<'a>>
    ensures reads { reads_add_merkle reader.old.rest.now ≡ out (option_map entry_of result) reader.new.rest.now }
    ensures parts { IfSome result EntryParts }
{
    let record = reader.record()?;
    let above = reader.sized()?;
    Some(Entry::AddMerkle { record, above })
}

// The element ends with the low byte of the verifier.
fn add_blum<'a>(reader: &mut Reader<'a>) -> Option<Entry<'a>>
    ensures reads { reads_add_blum reader.old.rest.now ≡ out (option_map entry_of result) reader.new.rest.now }
    ensures parts { IfSome result EntryParts }
{
    let all = reader.rest;
    let size = byte_len(all);
    let record = reader.record()?;
    let timestamp = reader.timestamp()?;
    let used = size - reader.rest.len();
    let verifier = reader.number()?;
    Some(Entry::AddBlum {
        record,
        timestamp,
        verifier,
        element: &all[0..used + 1],
    })
}

fn evict_merkle<'a>(reader: &mut Reader<'a>) -> Option<Entry<'a>>
    ensures reads { reads_evict_merkle reader.old.rest.now ≡ out (option_map entry_of result) reader.new.rest.now }
    ensures parts { IfSome result EntryParts }
{
    let path = reader.sized()?;
    let above = reader.sized()?;
    Some(Entry::EvictMerkle { path, above })
}

fn evict_blum<'a>(reader: &mut Reader<'a>) -> Option<Entry<'a>>
    ensures reads { reads_evict_blum reader.old.rest.now ≡ out (option_map entry_of result) reader.new.rest.now }
    ensures parts { IfSome result EntryParts }
{
    let path = reader.sized()?;
    let timestamp = reader.timestamp()?;
    Some(Entry::EvictBlum { path, timestamp })
}

fn evict_blum_merkle<'a>(reader: &mut Reader<'a>) -> Option<Entry<'a>>
    ensures reads { reads_evict_blum_merkle reader.old.rest.now ≡ out (option_map entry_of result) reader.new.rest.now }
    ensures parts { IfSome result EntryParts }
{
    let path = reader.sized()?;
    let above = reader.sized()?;
    let timestamp = reader.timestamp()?;
    Some(Entry::EvictBlumMerkle {
        path,
        above,
        timestamp,
    })
}

fn get<'a>(reader: &mut Reader<'a>) -> Option<Entry<'a>>
    ensures reads { reads_get reader.old.rest.now ≡ out (option_map entry_of result) reader.new.rest.now }
    ensures parts { IfSome result EntryParts }
{
    let key = reader.sized()?;
    let value = reader.value()?;
    Some(Entry::Get { key, value })
}

fn set<'a>(reader: &mut Reader<'a>) -> Option<Entry<'a>>
    ensures reads { reads_set reader.old.rest.now ≡ out (option_map entry_of result) reader.new.rest.now }
    ensures parts { IfSome result EntryParts }
{
    let key = reader.sized()?;
    let value = reader.sized()?;
    Some(Entry::Set { key, value })
}

// The fields of the entry with this code.
fn fields<'a>(reader: &mut Reader<'a>, code: u8) -> Option<Entry<'a>>
    ensures reads { reads_fields code reader.old.rest.now ≡ out (option_map entry_of result) reader.new.rest.now }
    ensures parts { IfSome result EntryParts }
{
    // The format's table of codes: an enum in between would list the same names twice.
    match code {
        0 => add_merkle(reader),
        1 => add_blum(reader),
        2 => evict_merkle(reader),
        3 => evict_blum(reader),
        4 => evict_blum_merkle(reader),
        5 => Some(Entry::NextEpoch),
        6 => Some(Entry::VerifyEpoch),
        7 => get(reader),
        _ => set(reader),
    }
}

fn entry<'a>(reader: &mut Reader<'a>) -> Option<Entry<'a>>
    ensures reads { reads_entry reader.old.rest.now ≡ out (option_map entry_of result) reader.new.rest.now }
    ensures parts { IfSome result EntryParts }
{
    let code = reader.tag(CODES)?;
    fields(reader, code)
}

// A verifier and its next entry.
pub fn event<'a>(reader: &mut Reader<'a>) -> Option<Event<'a>>
    ensures reads { reads_event reader.old.rest.now ≡ out (option_map logged_of result) reader.new.rest.now }
    ensures parts { IfSome result (λ e. EntryParts e.entry) }
{
    let verifier = reader.number()?;
    let entry = entry(reader)?;
    Some(Event { verifier, entry })
}
