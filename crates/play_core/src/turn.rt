// What a play takes and hands back of its packets.
use altq_model::{Reason, Rule};
use play_base::Packet;

/// A packet that is offered. The bytes that were captured of it are lent: they are copied only where its queue keeps it.
#[derive(Clone, Copy)]
pub struct LentPacket<'a> {
    pub number: u64,
    pub at: u64,
    pub len: u32,
    pub bytes: &'a [u8],
}

/// A packet that was dropped: its number from 1, its arrival in nanoseconds, its length in bytes, and why.
#[derive(Clone, Copy)]
pub struct Dropped {
    pub number: u64,
    pub at: u64,
    pub len: u32,
    pub reason: Reason,
}

/// A packet that was sent: its class, whether its queue marked it, by which rule it was sent, and its start and its end in
/// nanoseconds.
#[derive(Drop)]
pub struct Departure {
    pub packet: Packet,
    pub class: u32,
    pub marked: bool,
    pub rule: Rule,
    pub start: u64,
    pub end: u64,
}

/// What comes next in a play.
#[derive(Drop)]
pub enum Turn {
    /// Nothing: nothing waits, and no packet is left to offer.
    End,
    /// The offer of the next arrival.
    Offer,
    /// This sending, which was made.
    Send(Departure),
    /// A sending that would end at 2^32 seconds or later, which was not made.
    Late,
}
