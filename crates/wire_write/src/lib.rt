// Events and answers written as bytes into a lent slice. docs/FORMAT.md has the formats.
#![tactic(auto)]

mod answers;
mod events;
mod lengths;
mod writer;

pub use answers::write_answer;
pub use events::write_event;
pub use lengths::event_len;
