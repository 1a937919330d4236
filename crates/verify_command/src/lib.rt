//! The command `verify`: holding given departures and fates to a configuration and its arrivals, whoever made them.
#![tactic(auto)]

mod arrivals;
mod files;
mod lines;
mod verifying;

pub use verifying::verify;
