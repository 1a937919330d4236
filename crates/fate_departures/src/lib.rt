//! Given departures against the rows of given fates, byte by byte, whoever made them.
#![tactic(auto)]

mod departures;
mod frames;
mod records;

pub use departures::first_other_departure;
pub use frames::Frames;
