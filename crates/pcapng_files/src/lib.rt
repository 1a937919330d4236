//! Captures in the pcapng format (IETF draft-ietf-opsawg-pcapng): what they hold as a classic capture, and files of which one has
//! its first bytes in memory.
#![tactic(auto)]

mod block;
mod conversion;
mod converting;
mod fault;
mod front;
mod interface;
mod numbers;
mod options;
mod packet;
mod record;
mod units;

pub use converting::convert;
pub use fault::NgFault;
pub use front::{Front, FrontFiles};
pub use pcapng_model::{NgKind, NgPlace};
