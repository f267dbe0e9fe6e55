// May a record be added by Blum?
ghost use Rattle.std.specs.Prelude.{◌≡◌, ◌-◌, ◌^◌, ◌<◌, ◌≤◌, length};
ghost use Rattle.model.specs.Records.{Record, path_of};
ghost use Rattle.model.specs.Verifier.{Verifier};
ghost use Rattle.path.specs.Packs.{path_in};
ghost use Rattle.path.specs.Times.{timestamp_of};
ghost use Rattle.block.specs.Blocks.{block_words, Keeps};
ghost use Rattle.blum_conditions.specs.Adds.{MayAdd};

use block::{done, store};
use conditions::Failure;
use path::{Path, Timestamp};

// May a record with this path be added by Blum, evicted at this timestamp? The timestamp just after it.
pub fn may_add_blum(
    block: &[u64],
    n: usize,
    path: &Path,
    timestamp: Timestamp,
) -> Result<Timestamp, Failure>
    requires few { 2 ≤ n }
    requires room { length block.now ≡ block_words n }
    ensures { (v : Verifier) (x : Record) → Keeps n block.now v → path_of x ≡ path_in path.now.len path.now.bits → timestamp.counter < 2 ^ 64 - 1 → MayAdd v x (timestamp_of timestamp) result }
{
    if path.len == 0 {
        return Err(Failure::IsRoot);
    }
    if store(block, n).find(path).is_some() {
        return Err(Failure::AlreadyStored);
    }
    if timestamp.epoch < done(block) {
        return Err(Failure::EpochDone);
    }
    let Some(after) = timestamp.just_after() else {
        return Err(Failure::OutOfTime);
    };
    Ok(after)
}
