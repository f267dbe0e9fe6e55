// Pseudo-random events and strings of bytes: read, written, compared. Prints how many were what.
#![tactic(auto)]

mod random;
mod rounds;

use random::Random;
use rounds::Counts;
use std::io;

const ROUNDS: u32 = 4000;

const SEED: u64 = 0x9e37_79b9_7f4a_7c15;

fn main(rt: HostRuntime) -> io::Result<()> {
    let mut random = Random::new(SEED);
    let mut counts = Counts::default();
    // a number of times, and no items
    for _ in 0..ROUNDS {
        rounds::written_event(&mut random, &mut counts);
        rounds::changed_event(&mut random, &mut counts);
        rounds::any_bytes(&mut random, &mut counts);
        rounds::any_answer(&mut random, &mut counts);
    }
    let Counts {
        events,
        malformed,
        answers,
        none,
        failed,
    } = counts;
    println!(rt;
        "{events} events, {malformed} malformed, {answers} answers, {none} no answers, {failed} failed"
    )
}
