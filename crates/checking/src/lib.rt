// Checks a log file: its first line, its events one after the other, and what the answers come to.
#![tactic(auto)]

mod check;
mod error;
mod input;
mod key;
mod monitor;

pub use check::check_log;
pub use error::CheckError;
pub use monitor::{Monitor, OpenError};
