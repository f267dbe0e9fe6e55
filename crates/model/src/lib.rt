// What is checked, as definitions: SHA-256, records, one verifier, the monitor of all of them, and what is promised. See specs/.
#![tactic(auto)]

ghost use Rattle.model.specs.Examples.{Examples};
ghost use Rattle.model.specs.TwoVerifiers.{TwoVerifiers};

// That the definition of SHA-256 gives the digests of the standard's examples.
pub fn examples_hold()
    ensures { Examples }
{}

// That two verifiers answer some small logs as they should: an honest one is certified, and cheats are found.
pub fn two_verifiers_hold()
    ensures { TwoVerifiers }
{}
