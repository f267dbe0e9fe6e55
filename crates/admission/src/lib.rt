// Which events are refused: the first of a fixed list that applies. Nothing is written, and nothing hashed.
#![tactic(auto)]

ghost use Rattle.std.specs.Prelude.{◌≡◌, ℕ, ◌<◌, ◌≤◌, true, ◌&&◌, length, IfOk, IfErr, nat_le};
ghost use Rattle.model.specs.Verifier.{Verifier};
ghost use Rattle.model.specs.Monitor.{Limits, State, logged, verifier_at, is_add, epoch_named, fits_32, refusal};
ghost use Rattle.model.specs.Order.{all_entries};
ghost use Rattle.model.specs.Program.{GoodLimits};
ghost use Rattle.wire.specs.Meaning.{entry_of, refusal_code};
ghost use Rattle.range.specs.Packing.{PacksEntry};
ghost use Rattle.block.specs.Blocks.{block_words, Keeps};
ghost use Rattle.admission.specs.Stand.{Stands, code_of, Named};

mod standing;

use range::{Packed, in_range};
pub use standing::Standing;
use wire::{Entry, Refusal};

// An epoch fits 32 bits.
const LAST_EPOCH: u64 = 0xffff_ffff;

// Whether there is no room for what an entry adds.
#[tactic(auto, unfolding(model::specs::Monitor::entry_code))]
fn lacks_room(block: &[u64], n: usize, entry: Entry<'_>) -> bool
    requires few { 2 ≤ n }
    requires room { length block.now ≡ block_words n }
    ensures { (v : Verifier) → Keeps n block.now v → result ≡ (is_add (entry_of entry.entry) && nat_le n (length v.store)) }
{
    matches!(entry, Entry::AddMerkle { .. } | Entry::AddBlum { .. }) && block::is_full(block, n)
}

// The epoch that an entry names or begins; one that is out of range stays so.
#[tactic(auto, unfolding(model::specs::Monitor::epoch_named))]
fn named_epoch(block: &[u64], entry: Entry<'_>) -> u64
    requires { 64 ≤ length block.now }
    ensures { (n : ℕ) (v : Verifier) → Keeps n block.now v → Named result (epoch_named v (entry_of entry.entry)) }
{
    match entry {
        Entry::AddBlum { timestamp, .. }
        | Entry::EvictBlum { timestamp, .. }
        | Entry::EvictBlumMerkle { timestamp, .. } => timestamp.epoch,
        Entry::NextEpoch => block::clock(block).epoch.saturating_add(1),
        _ => 0,
    }
}

// What the entry of the verifier with this block names, packed; or why it is refused.
#[tactic(auto, unfolding(model::specs::Monitor::refusal, model::specs::Records::pick))]
pub fn admitted(block: &[u64], standing: Standing, entry: Entry<'_>) -> Result<Packed, Refusal>
    requires few { 2 ≤ standing.places }
    requires room { length block.now ≡ block_words standing.places }
    ensures packed { IfOk result (PacksEntry entry.entry) }
    ensures listed { IfErr result (λ r. 2 ≤ refusal_code r) }
    ensures refusal { (l : Limits) (s : State) (t : ℕ) → GoodLimits all_entries l → Stands standing l s → t < l.verifiers → Keeps standing.places block.now (verifier_at s.verifiers t) → refusal l s (logged t (entry_of entry.entry)) ≡ code_of result }
{
    let Some(packed) = in_range(entry, standing.verifiers) else {
        return Err(Refusal::OutOfRange);
    };
    let epoch = named_epoch(block, entry);
    if epoch > LAST_EPOCH {
        return Err(Refusal::OutOfRange);
    }
    if standing.stopped {
        return Err(Refusal::Stopped);
    }
    if lacks_room(block, standing.places, entry) {
        return Err(Refusal::Full);
    }
    if epoch >= standing.certified.saturating_add(standing.epochs) {
        return Err(Refusal::TooFarAhead);
    }
    Ok(packed)
}
