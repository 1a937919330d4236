//! What the bytes of a capture say, in the classic capture format (libpcap, pcap-savefile(5)): the definitions, in specs/, and
//! the plain types that they speak of.
#![tactic(auto)]

mod damage;
mod laws;
mod rows;

pub use damage::{Damage, DamageKind};
pub use laws::every_file_has_a_reading;
pub use rows::worked_captures;
