// How the parts of a play end.
ghost use Rattle.std.specs.Prelude.{◌≡◌};
ghost use Rattle.play_loop.specs.Ending.{capture_fault};

use crate::{Limit, PlayFault};
use pcap_files::CaptureFault;

/// What became of the sendings that are due before an arrival.
#[derive(Clone, Copy)]
pub enum Due {
    /// They were made.
    Made,
    /// One would end too late.
    Late,
}

/// How the events of a play ended.
#[derive(Clone, Copy)]
pub enum Ending {
    /// All were made.
    Whole,
    /// The capture could not be read on.
    Cut(CaptureFault),
    /// A sending would end too late.
    Late,
}

// How a fault of the capture becomes a fault of the play.
pub fn capture_fault(fault: CaptureFault) -> PlayFault
    ensures { result ≡ capture_fault fault }
{
    match fault {
        CaptureFault::Damage(damage) => PlayFault::Capture(damage),
        CaptureFault::Limit => PlayFault::Limit(Limit::Capture),
        CaptureFault::Read => PlayFault::Read,
        CaptureFault::NoMemory => PlayFault::NoMemory,
    }
}
