// What a fault of a play ends a command as.
ghost use Rattle.std.specs.Prelude.{◌≡◌};
ghost use Rattle.interface_play.specs.Failing.{play_failure};
ghost use Rattle.interface_play.specs.Source.{places_in};

use crate::play::Play;
use play_loop::{Limit, Output, PlayFault};
use run_outcomes::{CaptureStop, Failure, Link};

/// What this fault of a play on a link ends a command as.
pub fn play_failure(link: Link, play: &Play<'_>, fault: PlayFault) -> Failure
    ensures { result ≡ play_failure link (places_in play.now) fault }
{
    match fault {
        PlayFault::Capture(damage) => Failure::Capture(link, CaptureStop::Damage(damage)),
        PlayFault::Read => Failure::Read(play.arrivals.part),
        PlayFault::Write(Output::Departures) => Failure::Write(play.departures.part),
        PlayFault::Write(Output::Fates) => Failure::Write(play.fates.part),
        PlayFault::Write(Output::Statistics) => Failure::Write(play.stats.part),
        PlayFault::Limit(Limit::Capture) => Failure::Capture(link, CaptureStop::TooLong),
        PlayFault::Limit(Limit::Clock) => Failure::Capture(link, CaptureStop::Late),
        PlayFault::NoMemory => Failure::NoMemory,
    }
}
