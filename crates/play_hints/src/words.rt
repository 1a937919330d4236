// What is wrong with the words of the command line.

use crate::calling::usage;
use crate::line::{add_form, line};
use clap::error::ErrorKind;
use clap::{ArgMatches, Error};
use line_text::decimal;
use play_words::{number_to, options_read};
use std::alloc::{AllocError, Global};

// The options that name files.
const FILES: [&str; 10] = [
    "config",
    "arrivals",
    "departures",
    "fates",
    "stats",
    "departures2",
    "fates2",
    "stats2",
    "path",
    "marked",
];

// The words that ask how the program is called.
const FOR_USAGE: [&str; 5] = ["--help", "-h", "help", "--version", "-V"];

const NO_COMMAND: &str =
    "%: no command: check, bound, play, shares, chain, make, verify or condition";

// Adds a part of clap's text, its lines parted by blanks, behind a semicolon where another stands before it; nothing where it says how
// the program is called.
fn add_part(text: &mut String, part: &str) -> Result<(), AllocError> {
    if part.starts_with("Usage:")
        || part.starts_with("For more information")
        || part.trim().is_empty()
    {
        return Ok(());
    }
    text.push_str(if text.is_empty() { "" } else { ";" })?;
    for line in part.lines() {
        text.push_str(" ")?;
        text.push_str(line.trim())?;
    }
    Ok(())
}

// Clap's text of an error on one line, without the word that it begins with: its parts but those on usage, parted by semicolons.
fn clap_line(alloc: Global, told: &str) -> Result<String, AllocError> {
    let mut text = String::new(alloc);
    for part in told.strip_prefix("error: ").unwrap_or(told).split("\n\n") {
        add_part(&mut text, part)?;
    }
    Ok(text)
}

// What clap says of options that it refuses.
fn options_hint(alloc: Global, command: &str, error: &Error) -> Result<String, AllocError> {
    if error.kind() == ErrorKind::DisplayHelp {
        return usage(alloc);
    }
    let told = format!(in alloc; "{error}")?;
    let told = clap_line(alloc, told.as_str())?;
    line(alloc, "@:%", command, told.as_bytes(), &[])
}

// The first two options whose file names are equal, and that name.
fn twins<'a>(matches: &ArgMatches<'a>) -> Option<(&'static str, &'static str, &'a str)> {
    for pair in 0usize..100 {
        let (one, other) = (FILES[pair / 10], FILES[pair % 10]);
        let (name, second) = (matches.get_str(one), matches.get_str(other));
        if pair / 10 < pair % 10 && name == second {
            if let Some(name) = name {
                return Some((one, other, name));
            }
        }
    }
    None
}

// The options that are numbers from 1, each with the most that it may be, and what is said of any other text.
const NUMBERS: [(&str, u32, &str); 3] = [
    (
        "count",
        1_000_000,
        "--count %: no such count: decimal digits, 1 to 1000000, as 1000",
    ),
    (
        "longest",
        262_144,
        "--longest %: no such length: decimal digits, 1 to 262144, as 1514",
    ),
    (
        "burst",
        1_073_741_824,
        "--burst %: no such burst: decimal digits, 1 to 1073741824, as 15000",
    ),
];

// What is said of the first of these options that is no such number, and its text.
fn bad_number<'a>(matches: &ArgMatches<'a>) -> Option<(&'static str, &'a str)> {
    for (name, most, form) in NUMBERS {
        if let Some(text) = matches.get_str(name) {
            if number_to(text, most).is_none() {
                return Some((form, text));
            }
        }
    }
    None
}

// What is wrong with options that clap takes.
fn values_hint(alloc: Global, matches: &ArgMatches<'_>) -> Result<String, AllocError> {
    let (form, text) = match (bad_number(matches), matches.get_str("seed")) {
        (Some(bad), _) => bad,
        (None, Some(text)) if decimal(text.as_bytes()).is_none() => {
            (
                "--seed %: no number: decimal digits below 18446744073709551616, as 42",
                text,
            )
        }
        _ => return equal_hint(alloc, matches),
    };
    line(alloc, form, "", text.as_bytes(), &[])
}

// What to say of two options with one file name; no text where there are none.
fn equal_hint(alloc: Global, matches: &ArgMatches<'_>) -> Result<String, AllocError> {
    let mut text = String::new(alloc);
    if let Some((one, other, name)) = twins(matches) {
        add_form(&mut text, "--@, --%", one, other.as_bytes(), &[])?;
        let end = ": both are @: give each its own name\n";
        add_form(&mut text, end, name, b"", &[])?;
    }
    Ok(text)
}

/// What to say of words that `read_words` refuses: how the program is called where they ask for that, else a line with the word or
/// the option at fault, which clap names where it refuses the options; no text where nothing is wrong. `Err` comes only where there
/// is no memory.
pub fn words_hint(alloc: Global, words: &[String]) -> Result<String, AllocError> {
    let first = match words.first() {
        Some(word) => word.as_str(),
        None => return usage(alloc),
    };
    match options_read(alloc, words) {
        None if FOR_USAGE.contains(&first) => usage(alloc),
        None => line(alloc, NO_COMMAND, "", first.as_bytes(), &[]),
        Some(Err(error)) => options_hint(alloc, first, &error),
        Some(Ok(matches)) => values_hint(alloc, &matches),
    }
}
