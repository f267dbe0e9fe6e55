// What is added and evicted by Blum, in the sums of its epoch.
ghost use Rattle.std.specs.Prelude.{◌≡◌, ◌+◌, ◌*◌, ◌≤◌};
ghost use Rattle.memory.specs.Keeping.{sum_start, Kept, Laid};
ghost use Rattle.memory.specs.Ranges.{Bounded};
ghost use Rattle.epochs.specs.Summing.{summed, Sums};

use memory::{HEADER, Limits, Memory};

// What an epoch has a sum of: the elements that were added in it, and those that were evicted.
#[derive(Clone, Copy)]
pub enum SumOf {
    Added,
    Evicted,
}

// Where the sums of an epoch begin. Bounds are asked by a clause: a ghost field of Limits would ask them of whoever opens.
pub(crate) fn sum_start(limits: Limits, epoch: u64) -> usize
    requires { Bounded limits }
    ensures start { result ≡ sum_start limits.epochs epoch }
    ensures within { result + 32 ≤ 256 + 32 * limits.epochs }
{
    // no From stands between `u64` and `usize`
    HEADER + 32 * (epoch as usize % limits.epochs)
}

// Adds an element's hash to a sum of its epoch.
pub fn add(memory: &mut Memory<'_>, sum: SumOf, epoch: u64, hash: &[u64; 4])
    ensures same { memory.new.words.ghost_name ≡ memory.old.words.ghost_name }
    ensures limits { memory.new.limits ≡ memory.old.limits }
    ensures laid { Sums Laid (summed sum) memory.old.limits epoch hash.now memory.old.words.now memory.new.words.now }
    ensures kept { Sums Kept (summed sum) memory.old.limits epoch hash.now memory.old.words.now memory.new.words.now }
{
    let offset = match sum {
        SumOf::Added => 0,
        SumOf::Evicted => 4,
    };
    let a = sum_start(memory.limits, epoch) + offset;
    sums::add(&mut memory.words[a..a + 4], hash);
}
