//! What can come of a run: what a command did or what ended it early, the status that tells it, and the message that is printed of it.
#![tactic(auto)]

mod message;
mod outcome;
mod reported;
mod status;

pub use outcome::{CaptureStop, Done, Failure, Link};
pub use reported::{report, say_answer};
pub use status::{Status, status_of};
