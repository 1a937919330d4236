//! The command `check`: saying what a configuration means, and whether its curves fit the link.
#![tactic(auto)]

mod checking;

pub use checking::check;
