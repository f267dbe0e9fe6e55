// One verifier's entries over its own block of words: everything is asked first, and then written.
#![tactic(auto)]

mod calls;
mod merkle;

pub use calls::{get, set};
pub use merkle::{add_merkle, evict_merkle};
