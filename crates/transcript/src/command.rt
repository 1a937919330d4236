// Commands over files in memory.

use memory_files::MemoryFiles;
use play_base::{Files, NoMemory};
use play_cli::run;
use run_outcomes::Status;
use std::alloc::Global;

// The usual options of a command.
fn usual(command: &str) -> &'static str {
    match command {
        "check" | "bound" => "--config conf --interface if0",
        "condition" => "--config conf --interface if0 --arrivals in --marked marked",
        "verify" => { "--config conf --interface if0 --arrivals in --departures out --fates fates" }
        "chain" => {
            "--config conf --interface if0 --arrivals in --departures out --fates fates --stats stats --seed 42 --next if1 --departures2 out2 --fates2 fates2 --stats2 stats2 --path path"
        }
        _ => {
            "--config conf --interface if0 --arrivals in --departures out --fates fates --stats stats --seed 42"
        }
    }
}

/// Runs a command over files, of which `conf` and `in` are first set to a configuration and a capture.
pub fn run_over(
    alloc: Global,
    files: &mut MemoryFiles,
    config: &str,
    capture: &[u8],
    command: &[&str],
) -> Option<Status> {
    files.put("conf", config.as_bytes()).ok()?;
    files.put("in", capture).ok()?;
    run_words(alloc, files, command)
}

/// Runs a command over files of any kind.
pub fn run_words<F: Files>(alloc: Global, files: &mut F, command: &[&str]) -> Option<Status> {
    let words = whole_words(alloc, command).ok()?;
    Some(run(alloc, &words, files))
}

/// Adds how a command ended. Only of a chain its status tells the link.
pub fn add_status(answer: &mut String, status: Status) -> Option<()> {
    let (code, kind, link) = (status.code, status.kind, status.line);
    if (code == 4 || code == 7) && link > 0 {
        return write!(answer, "status {code} kind {kind} link {link}").ok();
    }
    write!(answer, "status {code} kind {kind}").ok()
}

// The words of a command line, with the usual options in the place of `..`.
fn whole_words(alloc: Global, command: &[&str]) -> Result<Vec<String>, NoMemory> {
    let name = command.first().copied().unwrap_or_default();
    let mut words = Vec::new(alloc);
    for word in command {
        let text = if *word == ".." { usual(name) } else { *word };
        push_words(alloc, &mut words, text)?;
    }
    Ok(words)
}

fn push_words(alloc: Global, words: &mut Vec<String>, text: &str) -> Result<(), NoMemory> {
    for word in text.split_whitespace() {
        words.push(String::from_str(alloc, word)?)?;
    }
    Ok(())
}
