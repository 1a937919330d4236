//! The command `condition`: writing what the conditioners of an interface make of a capture (RFC 2475).
#![tactic(auto)]

mod conditioning;
mod marking;

pub use conditioning::condition;
