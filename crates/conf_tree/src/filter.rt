//! Filters.

/// The addresses that a filter matches: those that agree with its own under its masks. Its own are masked.
#[derive(Clone, Copy)]
pub enum Addresses {
    /// Of IPv4, each with its mask.
    V4 {
        target: [u8; 4],
        target_mask: [u8; 4],
        source: [u8; 4],
        source_mask: [u8; 4],
    },
    /// Of IPv6, each with its prefix length in bits, 0 to 128.
    V6 {
        target: [u8; 16],
        target_len: u8,
        source: [u8; 16],
        source_len: u8,
    },
}

/// A filter: packets that it matches go to its class, unless a filter of a greater rule number, or an earlier one of the
/// same number, matches them too.
#[derive(Clone, Copy)]
pub struct Filter {
    /// The number of its class among the classes of its interface.
    pub class: u32,
    /// Its rule number; the greatest wins.
    pub ruleno: u32,
    /// The addresses that it matches.
    pub addresses: Addresses,
    /// The destination port that it matches; 0 matches each packet.
    pub target_port: u16,
    /// The source port that it matches; 0 matches each packet.
    pub source_port: u16,
    /// The protocol that it matches; 0 matches each packet.
    pub protocol: u8,
    /// The TOS or traffic class that it matches, masked, and its mask.
    pub tos: Option<(u8, u8)>,
}
