//! The discipline HFSC: each leaf is sent by real time where its curve asks for it, else by share within upper limits.
//!
//! It joins the choice by real time and the choice by link sharing, and keeps the laws of a discipline with the policy of HFSC.
//! The source is Stoica, Zhang and Ng, "A Hierarchical Fair Service Curve Algorithm for Link-Sharing, Real-Time and Priority
//! Services", SIGCOMM 1997; upper limits are those of altq.conf(5).
#![tactic(auto)]

mod chooser;
mod hfsc;
mod laws;
mod leaves;
mod without_limits;

pub use hfsc::Hfsc;
pub use hfsc_model::HfscClass;
pub use laws::leaves_are_timely;
pub use without_limits::next_never_waits;
