// The store for C, to be measured: nodes without children at paths of four words. C has no Option: the number of places stands for none.
#![tactic(auto)]

ghost use Rattle.std.specs.Prelude.{◌≡◌, true, List, [], ℕ, ◌*◌, ◌<◌, ◌≤◌, length};
ghost use Rattle.model.specs.Records.{no_children, node};
ghost use Rattle.model.specs.Verifier.{Stored, without};
ghost use Rattle.path.specs.Packs.{path_in, Packs};
ghost use Rattle.store.specs.Holding.{Added, Found, Holds, Walked};

use path::path_from_words;
use slot::Contents;
use slot::child::Child;
use store::{Store, find_words};

#[unsafe(no_mangle)]
pub extern "C" fn store_open(mem: &mut [u64], n: usize)
    requires few { 2 ≤ n }
    requires room { length mem.old ≡ 192 * n }
    ensures { (salt : ℕ) → Holds n salt mem.new [] }
{
    Store::new(mem, n, 0).open();
}

#[unsafe(no_mangle)]
pub extern "C" fn store_find(mem: &[u64], n: usize, salt: u64, len: usize, bits: &[u64]) -> usize
    requires few { 2 ≤ n }
    requires room { length mem.now ≡ 192 * n }
    requires four { length bits.now ≡ 4 }
    ensures { Packs len bits.now → (xs : List Stored) → Holds n salt mem.now xs → Found n mem.now xs (path_in len bits.now) result }
{
    find_words(mem, n, salt, len, bits).unwrap_or(n)
}

// Its slot; `n` if no path is in these words, or no place is left.
#[unsafe(no_mangle)]
pub extern "C" fn store_add(mem: &mut [u64], n: usize, salt: u64, len: usize, bits: &[u64]) -> usize
    requires few { 2 ≤ n }
    requires room { length mem.old ≡ 192 * n }
    ensures same { n ≤ result → mem.new ≡ mem.old }
    ensures stored { (xs : List Stored) → Holds n salt mem.old xs → result < n → Added n salt mem.new xs (record { rec = node (path_in len bits.now) no_children; by_merkle = true }) result }
{
    let Some(path) = path_from_words(len, bits) else {
        return n;
    };
    let contents = Contents::Node(Child::Absent, Child::Absent);
    let mut store = Store::new(mem, n, salt);
    store.add(&path, contents, true).unwrap_or(n)
}

#[unsafe(no_mangle)]
pub extern "C" fn store_remove(mem: &mut [u64], n: usize, salt: u64, i: usize)
    requires few { 2 ≤ n }
    requires room { length mem.old ≡ 192 * n }
    requires within { i < n }
    ensures { (xs : List Stored) (k : ℕ) (ws : List ℕ) → Holds n salt mem.old xs → Walked n salt mem.old k ws i → Holds n salt mem.new (without (path_in k ws) xs) }
{
    Store::new(mem, n, salt).remove(i);
}
