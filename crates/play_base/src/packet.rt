// What is kept of a packet.
ghost use Rattle.std.specs.Prelude.{◌≡◌};
ghost use Rattle.std.specs.Borrow.{Lends, Array, sem, u8 as byte};
ghost use Rattle.play_base.specs.contracts.packet.Bytes.{the_row};
ghost use Rattle.play_base.specs.Overwritten.{overwritten};

use std::marker::Model;

/// A packet that waits, named by its place in a pool of packets.
#[derive(Clone, Copy, Debug, PartialEq, Eq)]
pub struct Ticket(pub u32);

/// A packet of a capture. `number` counts from 1 in the capture's order, `at` is its arrival in nanoseconds, `len` its
/// length in bytes on the link, and `bytes` are those that were captured of it, never more than `len`.
#[derive(Drop)]
pub struct Packet {
    pub number: u64,
    pub at: u64,
    pub len: u32,
    pub bytes: Bytes,
}

/// Bytes that contracts see as their list. None of its calls takes memory or time that grows with the bytes.
#[derive(Drop)]
pub struct Bytes {
    held: Vec<u8>,
}

impl Model for Bytes {
    ghost use Rattle.std.specs.Prelude.{ℕ, List};

    ghost Value = { List ℕ };

    ghost view = { λ b. b.held.items };
}

impl Bytes {
    /// These very bytes.
    pub fn of(bytes: Vec<u8>) -> Bytes
        ensures { result ≡ bytes.items }
    {
        Bytes { held: bytes }
    }

    /// These very bytes, with their memory.
    pub fn into_vec(self) -> Vec<u8>
        ensures { result.items ≡ self }
    {
        self.held
    }

    /// The bytes in order.
    pub fn as_slice(&self) -> &[u8]
        ensures { result.now ≡ self.now }
    {
        self.held.as_slice()
    }

    /// The bytes in order, to be changed in place; their number stays.
    pub fn as_mut_slice(&mut self) -> &mut [u8]
        ensures value { result.now ≡ self.old }
        ensures* writes_back { sem 𝓛 (Lends the_row (Array byte 0) self.entry result (overwritten self.entry.now)) }
    {
        self.held.as_mut_slice()
    }
}
