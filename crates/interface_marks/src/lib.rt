//! The conditioners of an interface: a marker of them, and that a capture stays as it is where no class has one.
#![tactic(auto)]

mod conditioners;
mod laws;

pub use conditioners::{is_conditioned, marker_of};
pub use laws::nothing_is_marked_without_conditioners;
