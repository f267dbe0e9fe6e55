// The limits of a monitor, and the memory that they need.
ghost use Rattle.std.specs.Prelude.{◌≡◌, ℕ, ◌<◌, Bool, true, false, length, IfSome, MatchOption};
ghost use Rattle.model.specs.Monitor.{Limits as Meant, State};
ghost use Rattle.model.specs.Program.{GoodLimits};
ghost use Rattle.memory.specs.Keeping.{block_start, Kept};
ghost use Rattle.memory.specs.Ranges.{Agrees, Bounded, in_bounds, words_for};

use crate::HEADER;

#[derive(Clone, Copy)]
pub struct Limits {
    pub verifiers: usize,
    pub places: usize,
    pub epochs: usize,
}

// Are there as many of each as there may be?
fn are_in_bounds(limits: Limits) -> bool
    ensures { result ≡ in_bounds limits }
{
    (1..=64).contains(&limits.verifiers)
        && (2..=32768).contains(&limits.places)
        && (2..=16).contains(&limits.epochs)
}

// How many words of memory the limits need, unless they are out of range.
pub fn words_needed(limits: Limits) -> Option<usize>
    ensures { MatchOption result (in_bounds limits ≡ false) (λ n. (in_bounds limits ≡ true) × (n ≡ words_for limits)) }
{
    are_in_bounds(limits).then(|| {
        192 * (limits.verifiers * limits.places)
            + 64 * limits.verifiers
            + 32 * limits.epochs
            + HEADER
    })
}

// The limits that memory was opened with, unless they are out of range or need other memory.
pub fn limits_of(mem: &[u64]) -> Option<Limits>
    ensures fits { IfSome result (λ x. Bounded x × (length mem.now ≡ words_for x)) }
    ensures kept { (l : Meant) (s : State) (can : ℕ → Bool) → GoodLimits can l → Kept l mem.now s → MatchOption result ⊥ (λ x. Agrees x l) }
{
    if mem.len() < HEADER {
        return None;
    }
    // no From stands between `u64` and `usize`, here and where they are written
    let limits = Limits {
        verifiers: mem[0] as usize,
        places: mem[1] as usize,
        epochs: mem[2] as usize,
    };
    if mem.len() != words_needed(limits)? {
        return None;
    }
    Some(limits)
}

// Where the block of verifier `t` begins. Bounds are asked by a clause: a ghost field of Limits would ask them of whoever opens.
pub fn block_start(limits: Limits, t: usize) -> usize
    requires bounded { Bounded limits }
    requires within { t < limits.verifiers }
    ensures { result ≡ block_start limits.epochs limits.places t }
{
    HEADER + 32 * limits.epochs + t * (block::STORE + 192 * limits.places)
}
