// One verifier's block of words.
#![tactic(auto)]

ghost use Rattle.std.specs.Prelude.{◌≡◌, ◌+◌, ◌*◌, ◌≤◌, length, nat_le};
ghost use Rattle.model.specs.Verifier.{Verifier};
ghost use Rattle.block.specs.Blocks.{block_words, IsStoreOf, Keeps};

mod fields;
mod opening;
mod writes;

pub use fields::{clock, done, last_evicted};
pub use opening::open;
use store::StoreRef;
pub use writes::{set_clock, set_done};

// How many words of a block come before its store.
pub const STORE: usize = 64;

// Where the words of a block are.
pub const DONE: usize = 7;

pub const SALT: usize = 8;

// The store of a block, lent to be read.
pub fn store(block: &[u64], n: usize) -> StoreRef<'_>
    requires few { 2 ≤ n }
    requires room { length block.now ≡ block_words n }
    ensures { IsStoreOf n block.now result }
{
    StoreRef::new(&block[STORE..STORE + 192 * n], n, block[SALT])
}

// Is there no room for another record?
pub fn is_full(block: &[u64], n: usize) -> bool
    requires few { 2 ≤ n }
    requires room { length block.now ≡ block_words n }
    ensures { (v : Verifier) → Keeps n block.now v → result ≡ nat_le n (length v.store) }
{
    store(block, n).is_full()
}
