//! An interface and a capture as given files are held to them: what can become of the packets of each class, and the packets that
//! arrive.
#![tactic(auto)]

mod packets;
mod rights;

pub use packets::arrived;
pub use rights::{allowed, marks};
