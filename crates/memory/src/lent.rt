// A monitor's words, lent to be written, with the limits that they are for.
ghost use Rattle.std.specs.Prelude.{◌≡◌, length};
ghost use Rattle.memory.specs.Ranges.{Bounded, words_for};

use crate::Limits;

#[derive(Drop)]
pub struct Memory<'a> {
    pub words: &'a mut [u64],
    pub limits: Limits,
    ghost bounded: { Bounded limits },
    ghost room: { length words.now ≡ words_for limits },
}
