// Which entries are refused for what they name: all of it is in range, and is handed on packed, or nothing is.
#![tactic(auto)]

ghost use Rattle.std.specs.Prelude.{◌≡◌, is_some, IfSome};
ghost use Rattle.model.specs.Monitor.{Limits, good_entry};
ghost use Rattle.range.specs.Packing.{PacksEntry};
ghost use Rattle.wire.specs.Meaning.{entry_of};

mod entries;
mod fields;
mod packed;
mod records;

pub use packed::Packed;
use wire::Entry;

// What an entry names, if all of it is in range for this many verifiers.
#[tactic(auto, unfolding(model::specs::Monitor::good_entry))]
pub fn in_range(entry: Entry<'_>, verifiers: u64) -> Option<Packed>
    ensures some { (l : Limits) → l.verifiers ≡ verifiers → is_some result ≡ good_entry l (entry_of entry.entry) }
    ensures packed { IfSome result (PacksEntry entry.entry) }
{
    match entry {
        Entry::AddMerkle { record, above } => entries::add_merkle(record, above),
        Entry::AddBlum {
            record,
            timestamp,
            verifier,
            ..
        } => entries::add_blum(record, timestamp, verifier, verifiers),
        Entry::EvictMerkle { path, above } => entries::evict_merkle(path, above),
        Entry::EvictBlum { path, timestamp } => entries::evict_blum(path, timestamp),
        Entry::EvictBlumMerkle {
            path,
            above,
            timestamp,
        } => entries::evict_blum_merkle(path, above, timestamp),
        Entry::NextEpoch | Entry::VerifyEpoch => Some(records::nothing()),
        Entry::Get { key, value } => records::of_call(key, value),
        Entry::Set { key, value } => records::of_call(key, Some(value)),
    }
}
