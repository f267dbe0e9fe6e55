// May a record be evicted by Blum?
ghost use Rattle.std.specs.Prelude.{◌≡◌, ◌≤◌, length};
ghost use Rattle.model.specs.Verifier.{Verifier};
ghost use Rattle.path.specs.Packs.{path_in};
ghost use Rattle.path.specs.Times.{timestamp_of};
ghost use Rattle.block.specs.Blocks.{block_words, Keeps, salt_in, store_in};
ghost use Rattle.blum_conditions.specs.Evicts.{SlotWithin, SlotLed, MayEvict};

use block::{clock, last_evicted, store};
use conditions::Failure;
use path::{Path, Timestamp};
use reads::{has_merkle_child, is_by_merkle};

// May what is at `path` be evicted by Blum at this timestamp, if it was added in this way? Its slot.
pub fn may_evict_blum(
    block: &[u64],
    n: usize,
    path: &Path,
    timestamp: Timestamp,
    by_merkle: bool,
) -> Result<usize, Failure>
    requires few { 2 ≤ n }
    requires room { length block.now ≡ block_words n }
    ensures within { SlotWithin n result }
    ensures led { SlotLed n (salt_in block.now) (store_in n block.now) path.now.len path.now.bits result }
    ensures may { (v : Verifier) → Keeps n block.now v → MayEvict n (store_in n block.now) v (path_in path.now.len path.now.bits) (timestamp_of timestamp) by_merkle result }
{
    let store = store(block, n);
    let Some(i) = store.find(path) else {
        return Err(Failure::NotStored);
    };
    if is_by_merkle(store, i) != by_merkle {
        return Err(Failure::AddedOtherwise);
    }
    if path.len == 0 {
        return Err(Failure::IsRoot);
    }
    let last = last_evicted(block);
    if !clock(block).is_earlier_with(&last, timestamp, path) {
        return Err(Failure::NotLater);
    }
    if has_merkle_child(store, i) {
        return Err(Failure::ChildStored);
    }
    Ok(i)
}
