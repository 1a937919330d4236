// Why a reader answers no record.
ghost use Rattle.std.specs.Prelude.{◌≡◌};
ghost use Rattle.pcap_files.specs.Faults.{fault_of};

use capture_model::Damage;
use play_base::Trouble;

/// Why a capture, or a reader of one, can't be read on.
#[derive(Clone, Copy, Debug, PartialEq, Eq)]
pub enum CaptureFault {
    /// The first test that the file fails, and the place at which it fails.
    Damage(Damage),
    /// Bytes stand after 4,000,000 records, or a record would end past byte 2^30.
    Limit,
    /// A read of the file failed.
    Read,
    /// No memory was left.
    NoMemory,
}

// How a failed call on the file becomes a fault of the reader.
pub fn fault_of(trouble: Trouble) -> CaptureFault
    ensures { result ≡ fault_of trouble }
{
    match trouble {
        Trouble::Failed => CaptureFault::Read,
        Trouble::NoMemory => CaptureFault::NoMemory,
    }
}
