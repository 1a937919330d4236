//! The command `make`: a generated capture, and its play.
#![tactic(auto)]

mod arrivals;
mod making;

pub use making::make;
