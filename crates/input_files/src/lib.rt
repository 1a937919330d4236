//! Files that are read whole before anything in them is judged: their bytes, up to a limit, or the records of a capture.
#![tactic(auto)]

mod bytes;
mod held;
mod records;
mod taken;

pub use bytes::read_front;
pub use held::{Records, Seen};
pub use records::read_records;
pub use taken::Taken;
