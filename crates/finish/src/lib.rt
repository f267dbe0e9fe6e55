// What a right entry leaves besides its verifier's block: the sums, what is certified, and its answer.
#![tactic(auto)]

ghost use Rattle.std.specs.Prelude.{◌≡◌, List};
ghost use Rattle.model.specs.Verifier.{Element};
ghost use Rattle.model.specs.Monitor.{Limits as Meant, State, add_elements, evict_elements};
ghost use Rattle.memory.specs.Keeping.{Laid};
ghost use Rattle.memory.specs.Ranges.{Agrees};
ghost use Rattle.step.specs.Effects.{Effected};
ghost use Rattle.finish.specs.Finishing.{IsRefused, UnderWay, Ready, Finished};

use epochs::{SumOf, add, settle};
use memory::{CERTIFIED, Memory};
use step::Effect;
use wire::Answer;

// What is to be summed goes into the sums of its epoch.
fn sum(memory: &mut Memory<'_>, effect: Effect)
    ensures same { memory.new.words.ghost_name ≡ memory.old.words.ghost_name }
    ensures limits { memory.new.limits ≡ memory.old.limits }
    ensures laid { (l : Meant) (s z : State) (added evicted : List Element) → Agrees memory.old.limits l → Laid l memory.old.words.now s → Effected l.secret effect added evicted → UnderWay l s added → UnderWay l s evicted → z.verifiers ≡ s.verifiers → z.sums ≡ evict_elements l.secret (add_elements l.secret s.sums added) evicted → z.certified ≡ s.certified → z.stopped ≡ s.stopped → Laid l memory.new.words.now z }
{
    match effect {
        Effect::Nothing => {}
        Effect::Added(epoch, hash) => add(memory, SumOf::Added, epoch, &hash),
        Effect::Evicted(epoch, hash) => add(memory, SumOf::Evicted, epoch, &hash),
    }
}

// The answer to a right entry, which verifies an epoch or doesn't, once its verifier's block is written.
pub fn finish(memory: &mut Memory<'_>, effect: Effect, verifies: bool) -> Answer
    ensures same { memory.new.words.ghost_name ≡ memory.old.words.ghost_name }
    ensures limits { memory.new.limits ≡ memory.old.limits }
    ensures looked { IsRefused result → ⊥ }
    ensures finished { (l : Meant) (s z : State) → Agrees memory.old.limits l → Laid l memory.old.words.now s → Ready l s z effect verifies → Finished l memory.new.words.now z verifies result }
{
    sum(memory, effect);
    if !verifies {
        return Answer::Right;
    }
    if settle(memory) {
        return Answer::Wrong;
    }
    Answer::Certified(memory.words[CERTIFIED])
}
