// The message of what ended a command early.
ghost use Rattle.std.specs.Prelude.{◌≡◌, IfOk, string_bytes};
ghost use Rattle.run_outcomes.specs.Message.{capture_message, message_of, part_name, stop_message};

use crate::outcome::{CaptureStop, Failure};
use crate::status::long_kind;
use conf_lines::ConfPlace;
use file_plans::Part;
use std::alloc::{AllocError, Global};

/// The message where memory ran out; it takes none.
pub(crate) const OUT_OF_MEMORY: &str = "altqplay: out of memory\n";

// What could not be read or written.
fn part_name(part: Part) -> &'static str
    ensures { result.now ≡ part_name part }
{
    match part {
        Part::Configuration => "configuration",
        Part::Arrivals => "arrivals",
        Part::Departures => "departures",
        Part::Fates => "fates",
        Part::Statistics => "statistics",
        Part::Marked => "marked arrivals",
        Part::SecondDepartures => "second departures",
        Part::SecondFates => "second fates",
        Part::SecondStatistics => "second statistics",
        Part::Path => "path",
    }
}

// The message of a fault of a capture, by the byte at fault and the name of the fault.
fn capture_message(alloc: Global, place: u64, name: &str) -> Result<String, AllocError>
    ensures { IfOk result (λ m. string_bytes m ≡ capture_message place name.now) }
{
    format!(in alloc; "altqplay: capture byte {place}: {name}\n")
}

// The message of what is wrong with a capture, or ends its play.
fn stop_message(alloc: Global, stop: CaptureStop) -> Result<String, AllocError>
    ensures { IfOk result (λ m. string_bytes m ≡ stop_message stop) }
{
    match stop {
        CaptureStop::Damage(damage) => capture_message(alloc, damage.place, damage.kind.name()),
        CaptureStop::Block(block) => capture_message(alloc, block.place, block.kind.name()),
        CaptureStop::TooLong => String::from_str(alloc, "altqplay: limit 1 reached\n"),
        CaptureStop::Late => String::from_str(alloc, "altqplay: limit 2 reached\n"),
    }
}

// The message of a fault of the configuration.
fn place_message(alloc: Global, place: ConfPlace) -> Result<String, AllocError>
    ensures { IfOk result (λ m. string_bytes m ≡ message_of (Failure.Configuration place)) }
{
    let (line, word, name) = (place.line, place.word, place.kind.name());
    format!(in alloc; "altqplay: configuration line {line} word {word}: {name}\n")
}

/// The message of what ended a command early. `Err` comes only where there is no memory.
pub(crate) fn message(alloc: Global, failure: Failure) -> Result<String, AllocError>
    ensures { IfOk result (λ m. string_bytes m ≡ message_of failure) }
{
    match failure {
        Failure::Words(fault) => {
            let kind = fault.kind();
            format!(in alloc; "altqplay: words refused, kind {kind}\n")
        }
        Failure::Configuration(place) => place_message(alloc, place),
        Failure::Capture(_, stop) => stop_message(alloc, stop),
        Failure::Read(part) => {
            let name = part_name(part);
            format!(in alloc; "altqplay: reading {name} failed\n")
        }
        Failure::Write(part) => {
            let name = part_name(part);
            format!(in alloc; "altqplay: writing {name} failed\n")
        }
        Failure::Unsaid => String::from_str(alloc, "altqplay: writing result failed\n"),
        Failure::TooLong(part) => {
            let number = long_kind(part);
            format!(in alloc; "altqplay: limit {number} reached\n")
        }
        Failure::Refuted { row, test } => {
            let kind = test.number();
            format!(in alloc; "altqplay: not verified, row {row} kind {kind}\n")
        }
        Failure::NoMemory => String::from_str(alloc, OUT_OF_MEMORY),
    }
}
