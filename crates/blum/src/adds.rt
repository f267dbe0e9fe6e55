// AddBlum.
ghost use Rattle.std.specs.Prelude.{◌≡◌, ℕ, ◌-◌, ◌^◌, ◌<◌, ◌≤◌, false, length, is_ok};
ghost use Rattle.model.specs.Verifier.{Verifier, verifier_step, advance_clock, add_blum};
ghost use Rattle.path.specs.Packs.{path_in};
ghost use Rattle.path.specs.Times.{timestamp_of};
ghost use Rattle.slot.specs.Meant.{record_meant};
ghost use Rattle.block.specs.Blocks.{block_words, Keeps, Taken};

use block::{SALT, STORE, clock, set_clock};
use blum_conditions::may_add_blum;
use conditions::Failure;
use path::{Path, Timestamp};
use slot::Record;
use store::Store;

// The clock moves to a timestamp if that is later; the path evicted last is then the root.
fn advance(block: &mut [u64], timestamp: Timestamp)
    requires { 64 ≤ length block.old }
    ensures { (n : ℕ) (v : Verifier) → Keeps n block.old v → Keeps n block.new (advance_clock v (timestamp_of timestamp)) }
{
    if clock(block).is_earlier(timestamp) {
        set_clock(block, timestamp, &Path::root());
    }
}

// A record is added by Blum, evicted at this timestamp. There is room for it.
pub fn add_blum(
    block: &mut [u64],
    n: usize,
    record: Record<'_>,
    timestamp: Timestamp,
) -> Result<(), Failure>
    requires few { 2 ≤ n }
    requires room { length block.old ≡ block_words n }
    ensures same { is_ok result ≡ false → block.new ≡ block.old }
    ensures step { (t j : ℕ) (v : Verifier) → Keeps n block.old v → length v.store < n → timestamp.counter < 2 ^ 64 - 1 → Taken n block.new result (verifier_step t v (add_blum (record_meant «record».entry.path «record».entry.contents) (timestamp_of timestamp) j)) }
{
    let after = may_add_blum(block, n, &record.path, timestamp)?;
    advance(block, after);
    let salt = block[SALT];
    let (_, words) = block.split_at_mut(STORE);
    let mut store = Store::new(words, n, salt);
    store.add(&record.path, record.contents, false);
    Ok(())
}
