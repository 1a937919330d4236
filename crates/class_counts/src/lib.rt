//! The counts of each class while a play goes on: of its arrivals, its sendings and its drops.
#![tactic(auto)]

mod counting;

pub use counting::{Counted, count, no_counts};
