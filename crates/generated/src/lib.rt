//! The packets that `make` generates of the words of a seed, and their capture. What they are is this project's own rule.
#![tactic(auto)]

mod frame;
mod generator;
mod laws;
mod rows;
mod writing;

pub use generator::{GeneratedPacket, Generator};
pub use laws::generated_captures_read;
pub use rows::worked_packets;
pub use writing::write_capture;
