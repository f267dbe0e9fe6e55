// One verifier's entries by Blum, and its epochs, over its own block of words: everything is asked first, and then written.
#![tactic(auto)]

mod adds;
mod epochs;
mod evicts;

pub use adds::add_blum;
pub use epochs::{next_epoch, verify_epoch};
pub use evicts::{evict_blum, evict_blum_merkle};
