//! What a play stands on: the trait `Files` with its laws, through which all other crates see files; a packet's own types; and the
//! exact amounts of altq.conf(5)'s rates: units and nanoseconds.
#![tactic(auto)]

mod amounts;
mod files;
mod packet;
mod trouble;
mod writing;

pub use amounts::{time_of, units};
pub use files::Files;
pub use packet::{Bytes, Packet, Ticket};
pub use trouble::{NoMemory, Trouble};
pub use writing::write_all;
