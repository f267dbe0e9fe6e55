// A block as it is at first.
ghost use Rattle.std.specs.Prelude.{◌≡◌, ℕ, ◌+◌, ◌*◌, ◌≤◌, length, ◌==◌};
ghost use Rattle.model.specs.Verifier.{new_verifier};
ghost use Rattle.store.specs.Holding.{Holds};
ghost use Rattle.block.specs.Blocks.{block_words, Keeps};

use crate::{SALT, STORE};
use path::Path;
use slot::Contents;
use slot::child::Child;
use store::Store;

// A store as it is at first: with the root if it has it, else with nothing.
fn open_store(mem: &mut [u64], n: usize, salt: u64, has_root: bool)
    requires few { 2 ≤ n }
    requires room { length mem.old ≡ 192 * n }
    ensures { (t : ℕ) → has_root ≡ (t == 0) → Holds n salt mem.new (new_verifier t).store }
{
    let mut store = Store::new(mem, n, salt);
    store.open();
    if has_root {
        let no_children = Contents::Node(Child::Absent, Child::Absent);
        store.add(&Path::root(), no_children, true);
    }
}

// A verifier as it is at first, whatever the words were: with the root in its store if it has it, else with nothing.
pub fn open(block: &mut [u64], n: usize, salt: u64, has_root: bool)
    requires few { 2 ≤ n }
    requires room { length block.old ≡ block_words n }
    ensures { (t : ℕ) → has_root ≡ (t == 0) → Keeps n block.new (new_verifier t) }
{
    // its clock, the path that it evicted last, which is the root, and how many epochs it is done with
    block[0..8].copy_from_slice(&[0; 8]);
    block[SALT] = salt;
    open_store(&mut block[STORE..STORE + 192 * n], n, salt, has_root);
}
