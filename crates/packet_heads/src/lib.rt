//! The headers of a frame of Ethernet that name its flow: code point, protocol, addresses and ports of IPv4 and IPv6.
//!
//! No call takes memory or refuses a frame: whatever isn't a whole header of either protocol is `Other`. Not read are
//! extension headers of IPv6, so a packet whose ports stand behind one has none here, and what a tunnel holds.
#![tactic(auto)]

mod heads;
mod laws;
mod marking;
mod points;
mod rows;

pub use heads::{FlowHeads, flow, tos};
pub use laws::tos_alone_changes;
pub use marking::{dress, retag};
pub use points::{precedence, precedence_of};
pub use rows::worked_examples;
