//! Rows of given fates against the due moments of leaves with a real-time curve, whoever made them.
//!
//! The source is Stoica, Zhang and Ng, "A Hierarchical Fair Service Curve Algorithm for Link-Sharing, Real-Time and Priority
//! Services", SIGCOMM 1997: the guarantee of a service curve. It names arrivals, starts and ends alone, and not the rule that sent a
//! packet.
#![tactic(auto)]

mod dues;
mod given;
mod late;
mod leaf;
mod timely;

pub use dues::longest_time;
pub use given::{Late, Overdue};
pub use timely::lateness;
