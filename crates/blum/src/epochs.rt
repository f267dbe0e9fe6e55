// Epochs: the next one begins, or one is done with.
ghost use Rattle.std.specs.Prelude.{◌≡◌, ℕ, ◌-◌, ◌^◌, ◌<◌, ◌≤◌, false, length, is_ok};
ghost use Rattle.model.specs.Verifier.{Verifier, verifier_step, next_epoch, verify_epoch};
ghost use Rattle.block.specs.Blocks.{Keeps, Taken};

use block::{clock, done, set_clock, set_done};
use conditions::Failure;
use path::{Path, Timestamp};

// The clock goes on to the next epoch.
pub fn next_epoch(block: &mut [u64]) -> Result<(), Failure>
    requires { 64 ≤ length block.old }
    ensures same { is_ok result ≡ false → block.new ≡ block.old }
    ensures step { (n t : ℕ) (v : Verifier) → Keeps n block.old v → v.clock.epoch < 2 ^ 64 - 1 → Taken n block.new result (verifier_step t v next_epoch) }
{
    let epoch = clock(block).epoch;
    if epoch == u64::MAX {
        return Err(Failure::OutOfTime);
    }
    let first = Timestamp {
        epoch: epoch + 1,
        counter: 0,
    };
    set_clock(block, first, &Path::root());
    Ok(())
}

// The verifier is done with the first epoch that it isn't done with yet, if its clock is past that.
pub fn verify_epoch(block: &mut [u64]) -> Result<(), Failure>
    requires { 64 ≤ length block.old }
    ensures same { is_ok result ≡ false → block.new ≡ block.old }
    ensures step { (n t : ℕ) (v : Verifier) → Keeps n block.old v → Taken n block.new result (verifier_step t v verify_epoch) }
{
    let epoch = done(block);
    if epoch >= clock(block).epoch {
        return Err(Failure::ClockBehind);
    }
    set_done(block, epoch + 1);
    Ok(())
}
