//! The command `chain`: a capture through the queues of one interface and its link, and what leaves that through those of a second.
#![tactic(auto)]

mod chaining;
mod paths;

pub use chaining::chain;
