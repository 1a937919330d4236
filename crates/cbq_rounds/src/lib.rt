//! CBQ as a queueing discipline.
//!
//! Classes that are not ahead of their rates send by themselves, others by a loan from a class above them. Among those that may
//! send the greatest priority goes first, and weighted rounds share the link within a priority. After Floyd and Jacobson 1995.
#![tactic(auto)]

mod able;
mod cbq;
mod gains;
mod laws;
mod look;

pub use cbq::Cbq;
pub use cbq_model::CbqClass;
pub use discipline::{Discipline, Pick, Rule, Sending, Verdict};
pub use laws::classes_keep_their_rates;
