// How a command ended, in numbers.
ghost use Rattle.std.specs.Prelude.{◌≡◌};
ghost use Rattle.run_outcomes.specs.Outcome.{capture_status, ended, failure_status, long_kind, status_of, write_kind};

use crate::outcome::{CaptureStop, Done, Failure, Link};
use file_plans::Part;

/// How a command ended. Fields that a code does not use are 0.
#[derive(Clone, Copy, Debug, PartialEq, Eq)]
pub struct Status {
    /// 0 done, 2 words refused, 3 configuration refused, 4 capture damaged, 5 read fault, 6 write fault, 7 limit, 8 no memory,
    /// 10 not verified.
    pub code: u8,
    /// The line of a configuration's fault, from 1; the first row of given fates that fails a test, from 0; or of two links in a row
    /// the one whose capture or play ended it, from 1.
    pub line: u64,
    /// The word of a configuration's fault in its line, from 1.
    pub word: u64,
    /// The byte of a capture's fault, from 0.
    pub place: u64,
    /// What it was, by the numbers of the code's own table.
    pub kind: u8,
}

// A status without a place.
fn ended(code: u8, kind: u8) -> Status
    ensures { result ≡ ended code kind }
{
    Status {
        code,
        line: 0,
        word: 0,
        place: 0,
        kind,
    }
}

// What could not be written, as a status of code 6 gives it.
fn write_kind(part: Part) -> u8
    ensures { result ≡ write_kind part }
{
    match part {
        Part::Configuration => 0,
        Part::Departures => 1,
        Part::Fates => 2,
        Part::Statistics => 3,
        Part::Arrivals => 4,
        Part::Marked => 5,
        Part::SecondDepartures => 6,
        Part::SecondFates => 7,
        Part::SecondStatistics => 8,
        Part::Path => 9,
    }
}

// What is too long, as a status of code 7 gives it.
pub(crate) fn long_kind(part: Part) -> u8
    ensures { result ≡ long_kind part }
{
    match part {
        Part::Configuration => 3,
        Part::Fates => 4,
        _ => 5,
    }
}

// The status of what is wrong with a capture, or ends its play: the line is the number of its link.
fn capture_status(line: u64, stop: CaptureStop) -> Status
    ensures { result ≡ capture_status line stop }
{
    let (code, place, kind) = match stop {
        CaptureStop::Damage(damage) => (4, damage.place, damage.kind.number()),
        CaptureStop::Block(block) => (4, block.place, block.kind.number()),
        CaptureStop::TooLong => (7, 0, 1),
        CaptureStop::Late => (7, 0, 2),
    };
    Status {
        code,
        line,
        word: 0,
        place,
        kind,
    }
}

// The status of what ended a command early.
fn failure_status(failure: Failure) -> Status
    ensures { result ≡ failure_status failure }
{
    match failure {
        Failure::Words(fault) => ended(2, fault.kind()),
        Failure::Configuration(place) => Status {
            code: 3,
            line: place.line,
            word: place.word,
            place: 0,
            kind: place.kind.number(),
        },
        Failure::Capture(Link::Sole, stop) => capture_status(0, stop),
        Failure::Capture(Link::First, stop) => capture_status(1, stop),
        Failure::Capture(Link::Second, stop) => capture_status(2, stop),
        Failure::Read(part) => ended(5, part.number()),
        Failure::Write(part) => ended(6, write_kind(part)),
        Failure::Unsaid => ended(6, 10),
        Failure::TooLong(part) => ended(7, long_kind(part)),
        Failure::Refuted { row, test } => Status {
            code: 10,
            line: row,
            word: 0,
            place: 0,
            kind: test.number(),
        },
        Failure::NoMemory => ended(8, 0),
    }
}

/// The status of what came of a run: the code of its variant, and the place and the kind that the code's own table gives it; of what is done
/// code 0, and of a check kind 1 where the curves exceed the link.
pub fn status_of(outcome: Result<Done, Failure>) -> Status
    ensures { result ≡ status_of outcome }
{
    match outcome {
        Ok(Done::Done) => ended(0, 0),
        Ok(Done::Exceeds) => ended(0, 1),
        Err(failure) => failure_status(failure),
    }
}
