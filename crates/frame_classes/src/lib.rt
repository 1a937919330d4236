//! Where the frames of an interface belong, and the bytes with which they depart.
//!
//! The class of a frame is that of its flow by the filters, after altq.conf(5). Its precedence is that of its code point (RFC 2597),
//! but in a class whose queue marks it says whether the flow is capable of explicit congestion notification (RFC 3168).
#![tactic(auto)]

mod classifier;
mod handling;
mod laws;
mod rows;

pub use classifier::Classifier;
pub use handling::Handling;
pub use laws::{flows_have_classes, frames_have_classes};
pub use rows::worked_examples;
