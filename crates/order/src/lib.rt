// The theorems about the definitions of crate `model`, each on the contract of a function of its own; proofs/ has the proofs.
#![tactic(auto)]

ghost use Rattle.model.specs.Order.{CertifiedIsOne, OneByTheTree};
ghost use Rattle.model.specs.Statements.{StaysCertified, EvictedOnce, SumsAreSums, StoredOnce, ClockAdvances, AddBlumPasses, EvictBlumAdvances, EvictBlumMerkleAdvances, StaysStopped, WrongIsFinal, BytesDetermine, RefusedUnchanged};

// The one-order theorem: after any log, all calls in certified epochs are in one order, or two things in this very log collide.
pub fn certified_is_one()
    ensures { CertifiedIsOne }
{}

// Without sums, nothing needs to be certified: all calls so far are right in the log's own order, or two records or keys in it collide.
pub fn one_by_the_tree()
    ensures { OneByTheTree }
{}

// What is certified stays so, and nothing later is in a certified epoch: no call, no element, no sum.
pub fn stays_certified()
    ensures { StaysCertified }
{}

// No path is evicted by Blum twice at one timestamp by one verifier.
pub fn evicted_once()
    ensures { EvictedOnce }
{}

// The sums are the sums of what was added and evicted.
pub fn sums_are_sums()
    ensures { SumsAreSums }
{}

// A store has each path once.
pub fn stored_once()
    ensures { StoredOnce }
{}

// A clock never goes back.
pub fn clock_advances()
    ensures { ClockAdvances }
{}

// An AddBlum leaves the clock past the timestamp that it names.
pub fn add_blum_passes()
    ensures { AddBlumPasses }
{}

// An EvictBlum leaves the clock, with the path, later than it was.
pub fn evict_blum_advances()
    ensures { EvictBlumAdvances }
{}

// An EvictBlumMerkle leaves the clock, with the path, later than it was.
pub fn evict_blum_merkle_advances()
    ensures { EvictBlumMerkleAdvances }
{}

// A log that was wrong changes nothing any more.
pub fn stays_stopped()
    ensures { StaysStopped }
{}

// A log that was wrong answers nothing but refusals ever after.
pub fn wrong_is_final()
    ensures { WrongIsFinal }
{}

// Records with the same bytes are the same.
pub fn bytes_determine()
    ensures { BytesDetermine }
{}

// What is refused changes nothing.
pub fn refused_unchanged()
    ensures { RefusedUnchanged }
{}
