// One verifier's step: each entry over its block, by the rules, and what of it is to be summed.
#![tactic(auto)]

ghost use Rattle.std.specs.Prelude.{◌≡◌, ℕ, ◌<◌, ◌≤◌, true, false, length, is_ok};
ghost use Rattle.model.specs.Verifier.{Verifier, verifier_step};
ghost use Rattle.model.specs.Monitor.{is_add};
ghost use Rattle.wire.specs.Meaning.{entry_of, EntryParts};
ghost use Rattle.range.specs.Packing.{PacksEntry};
ghost use Rattle.block.specs.Blocks.{block_words, Keeps, Taken};
ghost use Rattle.step.specs.Effects.{Stepped, Timely, sums_none};
ghost use Rattle.slot.specs.Layout.{bytes_in};

mod adds;
mod effect;

use adds::{add_blum, add_merkle};
use blum::{evict_blum, evict_blum_merkle, next_epoch, verify_epoch};
use conditions::Failure;
pub use effect::Effect;
use range::Packed;
use sums::element_hash;
use verifier::{evict_merkle, get, set};
use wire::Entry;

// The entries of which nothing is summed. `step` takes the others, which would each hand on the same nothing here.
fn quiet_step(block: &mut [u64], n: usize, entry: Entry<'_>, packed: &Packed) -> Result<(), Failure>
    requires few { 2 ≤ n }
    requires room { length block.old ≡ block_words n }
    requires packed { PacksEntry entry packed.now }
    ensures same { is_ok result ≡ false → block.new ≡ block.old }
    ensures step { (t : ℕ) (v : Verifier) → Keeps n block.old v → (is_add (entry_of entry.entry) ≡ true → length v.store < n) → EntryParts entry.entry → Timely v entry.entry → sums_none entry.entry ≡ true → Taken n block.new result (verifier_step t v (entry_of entry.entry)) }
{
    match entry {
        Entry::AddMerkle { record, .. } => add_merkle(block, n, record, packed),
        Entry::EvictMerkle { .. } => evict_merkle(block, n, &packed.path, &packed.above),
        Entry::NextEpoch => next_epoch(block),
        Entry::VerifyEpoch => verify_epoch(block),
        Entry::Get { key, value } => get(block, n, key, value),
        Entry::Set { key, value } => set(block, n, key, value),
        _ => Err(Failure::NotStored),
    }
}

// What verifier number `verifier`, with this block, does with an entry, of which the paths and pointers are packed. There is room for what it adds.
pub fn step(
    block: &mut [u64],
    n: usize,
    verifier: u8,
    secret: &[u64; 4],
    entry: Entry<'_>,
    packed: &Packed,
) -> Result<Effect, Failure>
    requires few { 2 ≤ n }
    requires room { length block.old ≡ block_words n }
    requires packed { PacksEntry entry packed.now }
    ensures same { is_ok result ≡ false → block.new ≡ block.old }
    ensures step { (v : Verifier) → Keeps n block.old v → (is_add (entry_of entry.entry) ≡ true → length v.store < n) → EntryParts entry.entry → Timely v entry.entry → Stepped n block.new (bytes_in secret.now) result (verifier_step verifier v (entry_of entry.entry)) }
{
    match entry {
        Entry::AddBlum {
            record,
            timestamp,
            element,
            ..
        } => {
            add_blum(block, n, record, timestamp, packed)?;
            let hash = element_hash(secret, element);
            Ok(Effect::Added(timestamp.epoch, hash))
        }
        Entry::EvictBlum { timestamp, .. } => {
            let hash = evict_blum(block, n, verifier, secret, &packed.path, timestamp)?;
            Ok(Effect::Evicted(timestamp.epoch, hash))
        }
        Entry::EvictBlumMerkle { timestamp, .. } => {
            let (path, above) = (packed.path, packed.above);
            let hash = evict_blum_merkle(block, n, verifier, secret, &path, &above, timestamp)?;
            Ok(Effect::Evicted(timestamp.epoch, hash))
        }
        _ => {
            quiet_step(block, n, entry, packed)?;
            Ok(Effect::Nothing)
        }
    }
}
