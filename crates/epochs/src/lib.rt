// The sums of the epochs under way and what is certified, over all of a monitor's memory.
#![tactic(auto)]

mod certifying;
mod header;
mod summing;

pub use certifying::settle;
pub use header::{certified_in, is_stopped};
pub use summing::{SumOf, add};
