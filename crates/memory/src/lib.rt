// A monitor's memory.
#![tactic(auto)]

mod lent;
mod limits;
mod opening;

pub use lent::Memory;
pub use limits::{Limits, block_start, limits_of, words_needed};
pub use opening::open;

// How many words come before the sums.
pub const HEADER: usize = 256;

// Where the header's words are that change, and the four of the secret.
pub const STOPPED: usize = 3;

pub const CERTIFIED: usize = 4;

pub const SECRET: usize = 8;
