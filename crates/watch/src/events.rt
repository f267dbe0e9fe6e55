// Events that are some verifier's entries.
ghost use Rattle.std.specs.Prelude.{◌≡◌, ℕ, ◌≤◌, List, length, nat_eq, not, ◌==◌, slice_index};
ghost use Rattle.model.specs.Monitor.{Limits as Meant, Event as Happened, State, logged as logs, entry_code, state};
ghost use Rattle.model.specs.Order.{all_entries};
ghost use Rattle.model.specs.Program.{GoodLimits};
ghost use Rattle.wire.specs.Meaning.{entry_of, EntryParts};
ghost use Rattle.memory.specs.Keeping.{Kept};
ghost use Rattle.memory.specs.Ranges.{Agrees, Bounded, words_for};
ghost use Rattle.slot.specs.Parts.{part};
ghost use Rattle.admission.specs.Stand.{Stands};
ghost use Rattle.watch.specs.Promise.{IsRefused, Responds};

use admission::{Standing, admitted};
use block::STORE;
use epochs::certified_in;
use finish::finish;
use memory::{Limits, Memory, SECRET, STOPPED, block_start};
use step::step;
use wire::{Answer, Entry, Refusal};

// The words and the limits stand apart here: of words in a `Memory` that is lent to be written, a part lent to be read
// leaves known only how many they are.

// How the monitor stands. Words that no monitor wrote may have another number than 0 or 1 here: they are refused too.
// No From stands between `usize` and `u64`, here and below.
fn standing(mem: &[u64], limits: Limits) -> Standing
    requires bounded { Bounded limits }
    requires size { length mem.now ≡ words_for limits }
    ensures places { result.places ≡ limits.places }
    ensures stopped { result.stopped ≡ not (slice_index mem.now 3 == 0) }
    ensures stands { (l : Meant) (s : State) → Agrees limits l → Kept l mem.now s → Stands result l s }
{
    Standing {
        verifiers: limits.verifiers as u64,
        places: limits.places,
        epochs: limits.epochs as u64,
        certified: certified_in(mem),
        stopped: mem[STOPPED] != 0,
    }
}

// The secret of the sums.
fn secret_of(mem: &[u64]) -> [u64; 4]
    requires { 256 ≤ length mem.now }
    ensures { result ≡ part 8 4 mem.now }
{
    let mut secret = [0u64; 4];
    secret.copy_from_slice(&mem[SECRET..SECRET + 4]);
    secret
}

// Whether the entry tells how many epochs are certified.
#[tactic(auto, unfolding(model::specs::Monitor::entry_code))]
fn verifies_epoch(entry: Entry<'_>) -> bool
    ensures { result ≡ nat_eq (entry_code (entry_of entry.entry)) 6 }
{
    matches!(entry, Entry::VerifyEpoch)
}

// The answer to an entry of a verifier: refused, and nothing is written; or looked at, by the rules. A wrong one stops everything.
pub fn logged(mem: &mut [u64], limits: Limits, verifier: u64, entry: Entry<'_>) -> Answer
    requires bounded { Bounded limits }
    requires size { length mem.old ≡ words_for limits }
    ensures same { IsRefused result → mem.new ≡ mem.old }
    ensures responds { (l : Meant) (es : List Happened) → GoodLimits all_entries l → Agrees limits l → Kept l mem.old (state l es) → EntryParts entry.entry → Responds l (state l es) (logs verifier (entry_of entry.entry)) mem.new result }
{
    if verifier >= limits.verifiers as u64 {
        return Answer::Refused(Refusal::OutOfRange.into(), 0);
    }
    let a = block_start(limits, verifier as usize);
    let past = a + STORE + 192 * limits.places;
    let standing = standing(mem, limits);
    let packed = match admitted(&mem[a..past], standing, entry) {
        Ok(packed) => packed,
        Err(refusal) => return Answer::Refused(refusal.into(), 0),
    };
    let secret = secret_of(mem);
    let verifies = verifies_epoch(entry);
    match step(
        &mut mem[a..past],
        limits.places,
        verifier as u8, // there are fewer than 65
        &secret,
        entry,
        &packed,
    ) {
        Ok(effect) => finish(&mut Memory { words: mem, limits }, effect, verifies),
        Err(_) => {
            mem[STOPPED] = 1;
            Answer::Wrong
        }
    }
}
