//! The command `bound`: how late a packet of each leaf of an interface can be sent, whatever the other classes do.
#![tactic(auto)]

mod bounding;
mod lines;

pub use bounding::bound;
pub use lines::{Bound, bound_of};
