//! altqplay: plays the output queueing of one network interface over recorded traffic.
#![tactic(auto)]

ghost use Rattle.std.specs.Prelude.{◌≡◌};
ghost use Rattle.std.specs.Process.{exit_status};

mod talk;

use play_cli::{Ran, run_read};
use play_hints::{NO_UTF8, OUT_OF_MEMORY};
use real_files::{RealFiles, Seen};
use run_outcomes::{Status, status_of};
use std::fs::File;
use std::io::IsTerminal;
use std::os::fd::AsRawFd;
use std::process::ExitCode;
use std::{env, fs, io};

/// The code of words that are refused: also where one is no UTF-8.
const REFUSED: u8 = 2;

/// The exit status where memory runs out.
const NO_MEMORY: u8 = 8;

// The words behind the program's name.
fn words_of(rt: &HostRuntime) -> io::Result<Vec<String>> {
    let mut words = Vec::new(rt.alloc());
    for word in env::args(rt)?.skip(1) {
        words.push(word)?;
    }
    Ok(words)
}

// The exit status of a run: the code of its status.
fn exit_of(status: Status) -> ExitCode
    ensures { exit_status result ≡ status.code }
{
    ExitCode::from(status.code)
}

// A standard descriptor that was closed, on `/dev/null`.
fn reserved(rt: &HostRuntime) -> Option<File> {
    match fs::open(rt, "/dev/null") {
        Ok(file) if file.as_raw_fd() <= 2 => Some(file),
        _ => None,
    }
}

// Says on standard error what a person needs after a run. Where it cannot be said the status stays.
fn say_hint(rt: &HostRuntime, words: &[String], ran: &Ran<'_>, seen: &Seen) {
    let is_terminal = rt.stderr().is_terminal();
    let _ = match talk::text(rt.alloc(), words, ran, seen, is_terminal) {
        Ok(text) => rt.eprint(text.as_str()),
        Err(_) => rt.eprint(OUT_OF_MEMORY),
    };
}

// The status of words that cannot be had, after what a person needs.
fn without_words(rt: &HostRuntime, error: io::Error) -> ExitCode {
    if error.kind() == io::ErrorKind::OutOfMemory {
        let _ = rt.eprint(OUT_OF_MEMORY);
        return ExitCode::from(NO_MEMORY);
    }
    let _ = rt.eprint(NO_UTF8);
    ExitCode::from(REFUSED)
}

fn main(rt: HostRuntime) -> io::Result<ExitCode> {
    // A file of the run may not get the descriptor of a standard stream that is closed: what is said would go into it.
    let _standard = [reserved(&rt), reserved(&rt), reserved(&rt)];
    let words = match words_of(&rt) {
        Ok(words) => words,
        Err(error) => return Ok(without_words(&rt, error)),
    };
    let alloc = rt.alloc();
    let mut files = RealFiles::new(alloc, &rt);
    let ran = run_read(alloc, &words, &mut files);
    say_hint(&rt, &words, &ran, files.seen());
    Ok(exit_of(status_of(ran.outcome)))
}
