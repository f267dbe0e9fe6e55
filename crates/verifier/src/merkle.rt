// Entries by Merkle.
ghost use Rattle.std.specs.Prelude.{◌≡◌, ℕ, ◌<◌, ◌≤◌, false, ◌&&◌, length, is_ok};
ghost use Rattle.model.specs.Records.{is_absent, merkle_bytes as bytes_of};
ghost use Rattle.model.specs.Verifier.{Verifier, verifier_step, add_merkle, evict_merkle};
ghost use Rattle.path.specs.Packs.{path_in};
ghost use Rattle.slot.specs.Meant.{child_meant, record_meant, IsNamed};
ghost use Rattle.block.specs.Blocks.{block_words, Keeps, Taken};
ghost use Rattle.conditions.specs.Adds.{Told};

use block::{SALT, STORE, store};
use conditions::{Candidate, Failure, may_add_merkle, may_evict_merkle};
use path::Path;
use slot::child::Child;
use slot::{Contents, Record};
use store::Store;

// A record is added by Merkle, under the node at `above`. There is room for it.
pub fn add_merkle(
    block: &mut [u64],
    n: usize,
    record: Record<'_>,
    merkle_bytes: &[u8],
    above: &Path,
) -> Result<(), Failure>
    requires few { 2 ≤ n }
    requires room { length block.old ≡ block_words n }
    ensures same { is_ok result ≡ false → block.new ≡ block.old }
    ensures step { (t : ℕ) (v : Verifier) → Keeps n block.old v → length v.store < n → merkle_bytes.now ≡ bytes_of (record_meant «record».entry.path «record».entry.contents) → Taken n block.new result (verifier_step t v (add_merkle (record_meant «record».entry.path «record».entry.contents) (path_in above.now.len above.now.bits))) }
{
    let candidate = candidate(&record.path, record.contents, merkle_bytes);
    let adding = may_add_merkle(store(block, n), candidate, above)?;
    let salt = block[SALT];
    let (_, words) = block.split_at_mut(STORE);
    let mut store = Store::new(words, n, salt);
    changes::add_merkle(&mut store, &record.path, record.contents, &adding);
    Ok(())
}

// What is told of a record that is to be added.
fn candidate<'a>(path: &Path, contents: Contents<'_>, merkle_bytes: &'a [u8]) -> Candidate<'a>
    ensures { IsNamed path.now contents.entry → merkle_bytes.now ≡ bytes_of (record_meant path.now contents.entry) → Told (record_meant path.now contents.entry) result }
{
    match contents {
        Contents::Node(left, right) => Candidate {
            path: *path,
            is_initial: are_absent(&left, &right),
            of_node: true,
            merkle_bytes,
        },
        Contents::Data(_, value) => Candidate {
            path: *path,
            is_initial: value.is_none(),
            of_node: false,
            merkle_bytes,
        },
    }
}

// Are there no children?
fn are_absent(left: &Child, right: &Child) -> bool
    ensures { result ≡ (is_absent (child_meant left.now) && is_absent (child_meant right.now)) }
{
    is_child_absent(left) && is_child_absent(right)
}

fn is_child_absent(child: &Child) -> bool
    ensures { result ≡ is_absent (child_meant child.now) }
{
    matches!(child, Child::Absent)
}

// What is at `path` is evicted by Merkle, under the node at `above`.
pub fn evict_merkle(block: &mut [u64], n: usize, path: &Path, above: &Path) -> Result<(), Failure>
    requires few { 2 ≤ n }
    requires room { length block.old ≡ block_words n }
    ensures same { is_ok result ≡ false → block.new ≡ block.old }
    ensures step { (t : ℕ) (v : Verifier) → Keeps n block.old v → Taken n block.new result (verifier_step t v (evict_merkle (path_in path.now.len path.now.bits) (path_in above.now.len above.now.bits))) }
{
    let edge = may_evict_merkle(store(block, n), path, above)?;
    let salt = block[SALT];
    let (_, words) = block.split_at_mut(STORE);
    let mut store = Store::new(words, n, salt);
    changes::evict_merkle(&mut store, path, edge);
    Ok(())
}
