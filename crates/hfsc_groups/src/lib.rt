//! What link sharing keeps of each class, and of the children of each class.
//!
//! A `Node` has a class's total, its two curves over the openings so far, its virtual time and the moment from which it
//! opens. A `Group` has the active children of a class in the order of their virtual times, and those of them that open late
//! in the order of the moments from which they open. Moments are nanoseconds; totals are counted in the units of play_base.
//! The source is Stoica, Zhang and Ng, "A Hierarchical Fair Service Curve Algorithm for Link-Sharing, Real-Time and Priority
//! Services", SIGCOMM 1997; upper limits are those of altq.conf(5).
#![tactic(auto)]

mod delays;
mod group;
mod late;
mod node;
mod tree;

pub use group::{Group, has_come};
pub use node::Node;
pub use tree::{groups_of, is_parent, nodes_of, rank};
