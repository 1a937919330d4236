// What a play tells of a packet.

use altq_model::Fate;

/// What became of a packet: its number from 1, its arrival in nanoseconds, and its fate.
#[derive(Clone, Copy)]
pub struct KeptFate {
    pub number: u64,
    pub arrival: u64,
    pub fate: Fate,
}
