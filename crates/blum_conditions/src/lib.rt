// Whether entries by Blum are right, asked of a verifier's block before anything is written.
#![tactic(auto)]

mod adds;
mod evicts;
mod links;

pub use adds::may_add_blum;
pub use evicts::may_evict_blum;
pub use links::{Link, link_to};
