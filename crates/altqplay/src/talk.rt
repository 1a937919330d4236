// The lines on standard error: which text goes with what came of a run.

use clap::ArgMatches;
use file_plans::Part;
use file_tests::Test;
use play_cli::Ran;
use play_hints::{
    OUT_OF_MEMORY, capture_hint, conf_hint, file_hint, long_hint, play_line, refuted_hint,
    words_hint,
};
use play_words::{Command, options_read};
use real_files::Seen;
use run_outcomes::{Failure, Link};
use std::alloc::{AllocError, Global};

// The option that names a file.
fn option_of(part: Part) -> &'static str {
    match part {
        Part::Configuration => "config",
        Part::Arrivals => "arrivals",
        Part::Departures => "departures",
        Part::Fates => "fates",
        Part::Statistics => "stats",
        Part::Marked => "marked",
        Part::SecondDepartures => "departures2",
        Part::SecondFates => "fates2",
        Part::SecondStatistics => "stats2",
        Part::Path => "path",
    }
}

// The file that a failure tells of; none for standard output. Of two links in a row the second takes what departed from the first.
fn at_fault(failure: Failure) -> Option<Part> {
    match failure {
        Failure::Configuration(_) => Some(Part::Configuration),
        Failure::Capture(Link::Second, _) => Some(Part::Departures),
        Failure::Capture(..) => Some(Part::Arrivals),
        Failure::Read(part) | Failure::Write(part) | Failure::TooLong(part) => Some(part),
        Failure::Refuted {
            test: Test::Departures,
            ..
        } => Some(Part::Departures),
        Failure::Refuted { .. } => Some(Part::Fates),
        Failure::Words(_) | Failure::Unsaid | Failure::NoMemory => None,
    }
}

// What to say of a file, by the last error of the machine.
fn fault_text(alloc: Global, name: &str, seen: &Seen) -> Result<String, AllocError> {
    match seen.error() {
        Some(error) => {
            let fault = format!(in alloc; "{error}")?;
            file_hint(alloc, name, fault.as_str())
        }
        None => Ok(String::new(alloc)),
    }
}

// What to say of a run that failed, by the values of its options.
fn failure_text(
    alloc: Global,
    matches: &ArgMatches<'_>,
    failure: Failure,
    seen: &Seen,
) -> Result<String, AllocError> {
    let name = match at_fault(failure) {
        Some(part) => matches.get_str(option_of(part)).unwrap_or_default(),
        None => "standard output",
    };
    match failure {
        Failure::Configuration(place) => {
            let interface = matches.get_str("interface").unwrap_or_default();
            conf_hint(alloc, name, interface, seen.conf(), place)
        }
        Failure::Capture(_, stop) => capture_hint(alloc, name, seen.head(), stop),
        Failure::TooLong(part) => long_hint(alloc, name, part),
        Failure::Refuted { row, test } => refuted_hint(alloc, name, row, test),
        _ => fault_text(alloc, name, seen),
    }
}

/// What to say of a run, by what came of it and what was kept of it; `is_terminal` says whether someone reads it, who gets a line of
/// counts of a play that is done.
pub fn text(
    alloc: Global,
    words: &[String],
    ran: &Ran<'_>,
    seen: &Seen,
    is_terminal: bool,
) -> Result<String, AllocError> {
    match (ran.read, ran.outcome) {
        (Ok(Command::Play(_)), Ok(_)) if is_terminal => play_line(alloc, seen.stats()),
        (_, Ok(_)) => Ok(String::new(alloc)),
        (_, Err(Failure::Words(_))) => words_hint(alloc, words),
        (_, Err(Failure::NoMemory)) => String::from_str(alloc, OUT_OF_MEMORY),
        (_, Err(failure)) => match options_read(alloc, words) {
            Some(Ok(matches)) => failure_text(alloc, &matches, failure, seen),
            _ => Ok(String::new(alloc)),
        },
    }
}
