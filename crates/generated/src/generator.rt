// Packets made of the words of a seed.
ghost use Rattle.std.specs.Prelude.{◌≡◌, ◌<◌, ◌≤◌, ◌+◌, ◌*◌};
ghost use Rattle.generated.specs.Packets.{most_packets, packet};
ghost use Rattle.generated.specs.Generating.{Making, IsMaking, record_of};

use crate::frame::{CAPTURED, frame, len};
use leaf_queue::Words;
use std::marker::Model;

/// A packet that was generated.
#[derive(Clone, Copy)]
pub struct GeneratedPacket {
    /// Its arrival, in nanoseconds.
    pub at: u64,
    /// Its length, 64 to 1500 bytes.
    pub len: u32,
    /// What is captured of it: the heads of its frame.
    pub frame: [u8; CAPTURED],
}

/// Makes the packets of a seed one by one, of words of its own. Contracts see the seed and how many packets are made. It takes no
/// memory, and each packet takes constant time.
#[derive(Drop)]
pub struct Generator {
    seed: u64,
    made: u32,
    words: Words,
    arrival: u64,
}

impl Model for Generator {
    ghost Value = { Making };

    ghost view = { λ g. record { seed = g.seed; made = g.made } };

    ghost invariant = { λ g. IsMaking (record { seed = g.seed; made = g.made }) g.words g.arrival };
}

impl Generator {
    /// The generator of a seed, which has made no packet.
    pub fn new(seed: u64) -> Generator
        ensures { result ≡ record { seed = seed; made = 0 } }
    {
        Generator {
            seed,
            made: 0,
            words: Words::new(seed),
            arrival: 0,
        }
    }

    /// Makes the next packet, of the next two words; at most 1,000,000 are made.
    pub fn next(&mut self) -> GeneratedPacket
        requires { self.old.made < most_packets }
        ensures packet { record_of result ≡ packet self.old.seed self.old.made }
        ensures seed { self.new.seed ≡ self.old.seed }
        ensures made { self.new.made ≡ self.old.made + 1 }
    {
        let a = self.words.next();
        let b = self.words.next();
        self.arrival += (a % 200_000) as u64;
        self.made += 1;
        GeneratedPacket {
            at: self.arrival,
            len: len(b),
            frame: frame(a, b),
        }
    }
}
