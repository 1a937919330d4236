//! The fates that a file has left, read in pieces.
#![tactic(auto)]

mod fates;
mod reading;

pub use fates::{Fates, FatesFault};
pub use reading::read_fates;
