// How many bytes an event has; none, if a text is longer than its length can say.
// Counted beside the writing, since it has to be known before the first byte is written.
ghost use Rattle.std.specs.Prelude.{◌≡◌, ◌≤◌, length, IfSome, if◌then◌else◌, Some, None};
ghost use Rattle.model.specs.Monitor.{logged};
ghost use Rattle.model.specs.Readable.{readable};
ghost use Rattle.model.specs.Wire.{event_bytes};
ghost use Rattle.reader.specs.Meaning.{hash_number, value_of, pointer_of, record_of, timestamp_of};
ghost use Rattle.wire.specs.Meaning.{entry_of};
ghost use Rattle.wire_write.specs.Lengths.{sized_len, two_sized_len, number_len, hash_len, value_len, pointer_len, record_len, timestamp_len, fields_len};

use reader::byte_len;
use wire::{Contents, Entry, Pointer, Record, Timestamp};

// What a length of two bytes can say at most.
const LONGEST_TEXT: usize = 65535;

fn sized_len(text: &[u8]) -> Option<usize>
    ensures value { result ≡ sized_len text.now }
    ensures most { IfSome result (λ n. n ≤ 65537) }
{
    let len = byte_len(text);
    if len > LONGEST_TEXT {
        return None;
    }
    Some(2 + len)
}

// A caller learns here that every number of 64 bits fits its field.
fn number_len(n: u64) -> usize
    ensures value { Some result ≡ number_len n }
    ensures most { result ≤ 8 }
{
    n.to_le_bytes().len()
}

fn hash_len(hash: [u64; 4]) -> usize
    ensures value { Some result ≡ hash_len (hash_number hash) }
    ensures most { result ≤ 32 }
{
    number_len(hash[0]) + number_len(hash[1]) + number_len(hash[2]) + number_len(hash[3])
}

// Two texts, one after the other.
fn two_sized_len(first: &[u8], second: &[u8]) -> Option<usize>
    ensures value { result ≡ two_sized_len first.now second.now }
    ensures most { IfSome result (λ n. n ≤ 131074) }
{
    let m = sized_len(first)?;
    let n = sized_len(second)?;
    Some(m + n)
}

fn value_len(value: Option<&[u8]>) -> Option<usize>
    ensures value { result ≡ value_len (value_of value.entry) }
    ensures most { IfSome result (λ n. n ≤ 65538) }
{
    let Some(text) = value else {
        return Some(1);
    };
    let len = sized_len(text)?;
    Some(1 + len)
}

fn pointer_len(pointer: Pointer<'_>) -> Option<usize>
    ensures value { result ≡ pointer_len (pointer_of pointer.entry) }
    ensures most { IfSome result (λ n. n ≤ 65571) }
{
    let Pointer::Present { path, hash, .. } = pointer else {
        return Some(1);
    };
    let len = sized_len(path)?;
    Some(2 + len + hash_len(hash))
}

fn record_len(record: Record<'_>) -> Option<usize>
    ensures value { result ≡ record_len (record_of «record».entry) }
    ensures most { IfSome result (λ n. n ≤ 196681) }
{
    let name = sized_len(record.name)?;
    match record.contents {
        Contents::Value(value) => {
            let len = value_len(value)?;
            Some(2 + name + len)
        }
        Contents::Children { left, right } => {
            let first = pointer_len(left)?;
            let second = pointer_len(right)?;
            Some(2 + name + first + second)
        }
    }
}

fn timestamp_len(timestamp: Timestamp) -> usize
    ensures value { Some result ≡ timestamp_len (timestamp_of timestamp) }
    ensures most { result ≤ 16 }
{
    number_len(timestamp.epoch) + number_len(timestamp.counter)
}

// Each entry's fields, after the verifier and the code.
fn fields_len(entry: Entry<'_>) -> Option<usize>
    ensures value { result ≡ fields_len (entry_of entry.entry) }
    ensures most { IfSome result (λ n. n ≤ 262218) }
{
    match entry {
        Entry::AddMerkle { record, above } => {
            let first = record_len(record)?;
            let second = sized_len(above)?;
            Some(first + second)
        }
        Entry::AddBlum {
            record,
            timestamp,
            verifier,
            ..
        } => {
            let first = record_len(record)?;
            Some(first + timestamp_len(timestamp) + number_len(verifier))
        }
        Entry::EvictMerkle { path, above } => two_sized_len(path, above),
        Entry::EvictBlum { path, timestamp } => {
            let first = sized_len(path)?;
            Some(first + timestamp_len(timestamp))
        }
        Entry::EvictBlumMerkle {
            path,
            above,
            timestamp,
        } => {
            let first = two_sized_len(path, above)?;
            Some(first + timestamp_len(timestamp))
        }
        Entry::NextEpoch | Entry::VerifyEpoch => Some(0),
        Entry::Get { key, value } => {
            let first = sized_len(key)?;
            let second = value_len(value)?;
            Some(first + second)
        }
        Entry::Set { key, value } => two_sized_len(key, value),
    }
}

// How many bytes the event has.
pub fn event_len(verifier: u64, entry: Entry<'_>) -> Option<usize>
    ensures { result ≡ (if readable (logged verifier (entry_of entry.entry)) then Some (length (event_bytes verifier (entry_of entry.entry))) else None) }
{
    let head = number_len(verifier) + 1;
    let fields = fields_len(entry)?;
    Some(head + fields)
}
