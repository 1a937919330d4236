// Why a pcapng capture is not converted.
ghost use Rattle.std.specs.Prelude.{◌≡◌};
ghost use Rattle.pcapng_files.specs.Converted.{fault_of};

use pcapng_model::{NgKind, NgPlace};

/// Why a pcapng capture is not converted.
#[derive(Clone, Copy, Debug, PartialEq, Eq)]
pub enum NgFault {
    /// The first test that a block fails, and the place of that block.
    At(NgPlace),
    /// The file has more than 2^30 bytes, or holds a packet behind 4,000,000 others.
    Limit,
    /// No memory was left.
    NoMemory,
}

// Why a block is not taken.
#[derive(Clone, Copy)]
pub enum Refusal {
    Broken(NgKind),
    Limit,
    NoMemory,
}

impl Refusal {
    // The fault of the file whose block at this place is not taken.
    pub fn at(self, place: usize) -> NgFault
        ensures { result ≡ fault_of self place }
    {
        match self {
            Refusal::Broken(kind) => NgFault::At(NgPlace {
                place: place as u64,
                kind,
            }),
            Refusal::Limit => NgFault::Limit,
            Refusal::NoMemory => NgFault::NoMemory,
        }
    }
}
