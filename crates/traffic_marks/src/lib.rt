//! Conditioners: the capture whose frames carry the marks that the meters of their classes give them, before they are queued
//! (RFC 2475).
//!
//! The capture is a definition on bytes, in specs/, over a function that finds the class of a frame and a list of classes with
//! their meters. `mark` is its step: it marks one frame.
#![tactic(auto)]

mod capture_rows;
mod colours;
mod laws;
mod marking;
mod metering;

pub use capture_rows::{worked_captures, worked_places};
pub use colours::greatest_numbers;
pub use laws::marks_alone_change;
pub use marking::mark;
