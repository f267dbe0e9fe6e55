// Which epochs are certified: those that all verifiers are done with, and whose sums agree.
ghost use Rattle.std.specs.Prelude.{◌≡◌, ◌+◌, ◌^◌, ◌<◌, true};
ghost use Rattle.model.specs.Monitor.{Limits as Meant, State, all_done, sums_agree};
ghost use Rattle.memory.specs.Keeping.{Laid};
ghost use Rattle.memory.specs.Ranges.{Agrees};
ghost use Rattle.epochs.specs.Settling.{Settles};

use crate::summing::sum_start;
use memory::{CERTIFIED, HEADER, Memory, STOPPED};

// Are all verifiers done with an epoch? Then its number is not the last that a word has.
fn are_all_done(memory: &Memory<'_>, epoch: u64) -> bool
    ensures all { (l : Meant) (s : State) → Agrees memory.now.limits l → Laid l memory.now.words.now s → result ≡ all_done s.verifiers epoch }
    ensures fits { result ≡ true → epoch + 1 < 2 ^ 64 }
{
    let limits = memory.limits;
    let blocks = &memory.words[HEADER + 32 * limits.epochs..];
    for words in blocks.chunks_exact(block::STORE + 192 * limits.places) {
        if block::done(words) <= epoch {
            return false;
        }
    }
    true
}

// Do the sums come out even of the first epoch that isn't certified?
fn are_even(memory: &Memory<'_>, epoch: u64) -> bool
    ensures { (l : Meant) (s : State) → Agrees memory.now.limits l → Laid l memory.now.words.now s → epoch ≡ s.certified → result ≡ sums_agree s.sums s.certified }
{
    let a = sum_start(memory.limits, epoch);
    sums::agree(&memory.words[a..a + 8])
}

// Certifies the first epoch that isn't certified, if all verifiers are done with it and its sums agree: its words are then
// those of the first epoch that may begin now. True, and the log is wrong, if all are done with it and its sums differ.
pub fn settle(memory: &mut Memory<'_>) -> bool
    ensures same { memory.new.words.ghost_name ≡ memory.old.words.ghost_name }
    ensures limits { memory.new.limits ≡ memory.old.limits }
    ensures settles { Settles memory.old.limits result memory.old.words.now memory.new.words.now }
{
    let epoch = memory.words[CERTIFIED];
    if !are_all_done(memory, epoch) {
        return false;
    }
    if !are_even(memory, epoch) {
        memory.words[STOPPED] = 1;
        return true;
    }
    let a = sum_start(memory.limits, epoch);
    memory.words[a..a + 8].fill(0);
    memory.words[CERTIFIED] = epoch + 1;
    false
}
