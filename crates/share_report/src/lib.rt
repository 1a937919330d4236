//! How fair was it? A discipline that shares a link by HFSC, and of its siblings how far apart their work was, at most, while both were
//! active. Where link sharing alone decides each gap keeps its bound. The source is Stoica, Zhang and Ng, "A Hierarchical Fair Service
//! Curve Algorithm for Link-Sharing, Real-Time and Priority Services", SIGCOMM 1997.
#![tactic(auto)]

mod laws;
mod rows;
mod watched;

pub use laws::gaps_are_greatest;
pub use rows::{
    bend_beside_two_leaves, gap_of_two_leaves, gaps_of_three_leaves, no_bound_with_real_time,
};
pub use share_gaps::Gap;
pub use watched::Watched;
