// The monitor of the program: an event is answered by its bytes alone.
ghost use Rattle.std.specs.Prelude.{◌≡◌, false, ℕ, vec_len};
ghost use Rattle.logfile.specs.FirstLine.{words_for};
ghost use Rattle.model.specs.Monitor.{Limits as Meant, State, malformed, answer as answering};
ghost use Rattle.model.specs.Wire.{read as reading};
ghost use Rattle.wire.specs.Meaning.{answer_of};

use checking::{Monitor, OpenError};
use logfile::Limits;
use monitor::{answer, answer_cut};
use std::alloc::Global;
use wire::Answer;

#[derive(Drop)]
pub struct Rules {
    // A log is checked only where there is memory for its limits, though no answer needs any yet.
    memory: Vec<u64>,
}

impl Monitor for Rules {
    ghost opened = { λ limits _ m. vec_len m.memory ≡ words_for limits };

    ghost answers = { λ _ event r _. (l : Meant) (s : State) → ((k : ℕ) → l.supports k ≡ false) → answer_of r ≡ answering l s (reading event) };

    ghost answers_cut = { λ _ len r _. (l : Meant) (s : State) → answer_of r ≡ answering l s (malformed len) };

    fn open(alloc: Global, limits: Limits, _key: &[u8; 32]) -> Result<Rules, OpenError> {
        let memory = vec![in alloc; 0u64; limits.memory_words()]?;
        Ok(Rules { memory })
    }

    fn take(&mut self, event: &[u8]) -> Answer {
        answer(event)
    }

    fn take_cut(&mut self, len: usize) -> Answer {
        answer_cut(len)
    }
}
