//! Holds given departures and fates to a configuration and its arrivals, whoever made them.
#![tactic(auto)]

mod due;
mod judging;
mod laws;
mod tests;
mod unlimited;
mod verdict;

pub use judging::judge;
pub use laws::{files_are_judged_one_way, verified_files_are_of_a_journal};
pub use verdict::Unverified;
