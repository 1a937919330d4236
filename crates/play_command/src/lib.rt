//! The command `play`: a capture through the queues of a configured interface and a link of its rate.
#![tactic(auto)]

mod playing;

pub use playing::{play, play_of};
