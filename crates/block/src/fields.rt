// What a block says of its verifier.
ghost use Rattle.std.specs.Prelude.{◌≡◌, ℕ, ◌≤◌, length};
ghost use Rattle.model.specs.Verifier.{Verifier};
ghost use Rattle.path.specs.Packs.{path_in};
ghost use Rattle.path.specs.Times.{timestamp_of};
ghost use Rattle.block.specs.Blocks.{Keeps};

use crate::DONE;
use path::{Path, Timestamp, path_from_words};

pub fn clock(block: &[u64]) -> Timestamp
    requires { 64 ≤ length block.now }
    ensures { (n : ℕ) (v : Verifier) → Keeps n block.now v → timestamp_of result ≡ v.clock }
{
    Timestamp {
        epoch: block[0],
        counter: block[1],
    }
}

// The path that the verifier evicted last; the root where no path is in the words, which `set_clock` never leaves so.
pub fn last_evicted(block: &[u64]) -> Path
    requires { 64 ≤ length block.now }
    ensures { (n : ℕ) (v : Verifier) → Keeps n block.now v → path_in result.len result.bits ≡ v.last_evicted }
{
    // no From stands between `u64` and `usize`
    path_from_words(block[2] as usize, &block[3..7]).unwrap_or(Path::root())
}

// How many epochs the verifier is done with.
pub fn done(block: &[u64]) -> u64
    requires { 64 ≤ length block.now }
    ensures { (n : ℕ) (v : Verifier) → Keeps n block.now v → result ≡ v.done }
{
    block[DONE]
}
