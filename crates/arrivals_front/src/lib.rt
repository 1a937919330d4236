//! How a file of arrivals is read: a classic capture as it stands, a pcapng capture as the classic one of its packets. A pcapng file
//! is known by its first four bytes (IETF draft-ietf-opsawg-pcapng, section header block) and read whole.
#![tactic(auto)]

mod given;
mod taking;

pub use given::{Given, GivenFault, given_arrivals};
pub use taking::take_to;
