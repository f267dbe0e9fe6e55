// A log file: the limits in its first line, and where its events begin and end.
#![tactic(auto)]

mod frame;
mod limits;

pub use frame::{Frame, LENGTH_BYTES, Short, cut_at, frame_at};
pub use limits::{Limits, LineRefusal, read_limits};
