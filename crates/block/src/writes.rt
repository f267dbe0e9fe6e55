// Writing what a block says of its verifier.
ghost use Rattle.std.specs.Prelude.{ℕ, ◌≤◌, length};
ghost use Rattle.model.specs.Verifier.{Verifier};
ghost use Rattle.path.specs.Packs.{path_in};
ghost use Rattle.path.specs.Times.{timestamp_of};
ghost use Rattle.block.specs.Blocks.{Keeps, with_clock, with_done};

use crate::DONE;
use path::{Path, Timestamp};

// The clock is at this timestamp, and the path evicted last is this one.
pub fn set_clock(block: &mut [u64], timestamp: Timestamp, last: &Path)
    requires { 64 ≤ length block.old }
    ensures { (n : ℕ) (v : Verifier) → Keeps n block.old v → Keeps n block.new (with_clock v (timestamp_of timestamp) (path_in last.now.len last.now.bits)) }
{
    block[0] = timestamp.epoch;
    block[1] = timestamp.counter;
    block[2] = last.len as u64; // no From stands between these
    block[3..7].copy_from_slice(&last.bits);
}

// The verifier is done with this many epochs.
pub fn set_done(block: &mut [u64], done: u64)
    requires { 64 ≤ length block.old }
    ensures { (n : ℕ) (v : Verifier) → Keeps n block.old v → Keeps n block.new (with_done v done) }
{
    block[DONE] = done;
}
