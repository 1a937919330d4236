//! Captures in the classic capture format of version 2.4 (libpcap, pcap-savefile(5)): a reader that returns the records of
//! a file one by one from pieces of it, and the headers that a capture is written with.
#![tactic(auto)]

mod ahead;
mod fault;
mod form;
mod laws;
mod numbers;
mod progress;
mod reader;
mod record;
mod rows;
mod stand;
mod writing;

pub use capture_model::{Damage, DamageKind};
pub use fault::CaptureFault;
pub use form::Head;
pub use laws::{bytes_read_one_way, written_captures_read_back};
pub use progress::Progress;
pub use reader::Reader;
pub use record::{Found, Record};
pub use rows::worked_records;
pub use stand::{Stand, stand_at};
pub use writing::{head_bytes, put_record_head, record_head};
