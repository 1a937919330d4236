// What inputs that are not had end a command as.
ghost use Rattle.std.specs.Prelude.{◌≡◌};
ghost use Rattle.command_form.specs.Form.{unready_failure};

use file_plans::Part;
use run_inputs::{Stop, Unready};
use run_outcomes::{CaptureStop, Failure, Link};

/// What inputs that are not had end a command as; `link` is the link that a fault of their capture names.
pub fn unready_failure(link: Link, unready: Unready) -> Failure
    ensures { result ≡ unready_failure link unready }
{
    match unready {
        Unready::NoMemory => Failure::NoMemory,
        Unready::Stop(Stop::NoConfiguration) => Failure::Read(Part::Configuration),
        Unready::Stop(Stop::LongConfiguration) => Failure::TooLong(Part::Configuration),
        Unready::Stop(Stop::Refused(place)) => Failure::Configuration(place),
        Unready::Stop(Stop::NoArrivals) => Failure::Read(Part::Arrivals),
        Unready::Stop(Stop::NoPcapng(block)) => Failure::Capture(link, CaptureStop::Block(block)),
        Unready::Stop(Stop::LongPcapng) => Failure::Capture(link, CaptureStop::TooLong),
    }
}
