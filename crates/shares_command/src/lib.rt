//! The command `shares`: a play, and how far apart the work of sibling classes was in it.
#![tactic(auto)]

mod classes;
mod lines;
mod measuring;
mod sharing;

pub use sharing::shares;
