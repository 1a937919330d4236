//! What the bytes of a capture say in the pcapng format (IETF draft-ietf-opsawg-pcapng, "PCAP Next Generation (pcapng) Capture
//! File Format"): the definitions, in specs/, and the plain types that they speak of.
#![tactic(auto)]

mod fault;
mod laws;
mod rows;

pub use fault::{NgKind, NgPlace};
pub use laws::{every_pcapng_has_a_reading, long_files_are_a_limit, pcapng_reads_one_way};
pub use rows::{
    worked_faults, worked_interface_faults, worked_limits, worked_packet_faults, worked_pcapng,
    worked_sections, worked_stamps,
};
