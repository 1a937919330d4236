//! Single calls of the crates below, each by the words of a line of a case: curves, the flow of a frame, RED's average, and what a
//! discipline answers at a moment.
//!
//! README.md of the crate `transcript` says what a line may say. Every premise of each call of the discipline is proved here, for HFSC
//! and for CBQ. `None` of a function says that the words are not understood, or that memory ran out.
#![tactic(auto)]

mod averages;
mod calls;
mod moments;
mod openings;
mod sendings;

pub use averages::average;
pub use calls::{add_flow_of, of_curve};
pub use moments::next_at;
