//! Worked plays as text. A transcript holds cases: a configuration, packets, commands, and below each command what it answers.
//!
//! README.md of this crate says what a line may say. Nothing here is part of the program: the crate runs it over files in memory, so
//! that what a play answers can be compared with what was reckoned, at no proof for each play. `None` of a function says that the
//! words are not understood, or that memory ran out.
#![tactic(auto)]

mod case;
mod command;
mod trials;

use case::Case;
use play_base::NoMemory;
use std::alloc::Global;

/// The transcript with the answers of now: each line that begins with `>`, an answer of before, is left out, every other line stands as
/// it is, and below it what it answers. So the answer is `text` where nothing has changed and each line ends with a line feed.
/// `NoMemory` comes only when memory runs out. Time and memory are those of the plays.
pub fn answered(alloc: Global, text: &str) -> Result<String, NoMemory> {
    let mut answered = String::new(alloc);
    let Some(mut case) = Case::new(alloc) else {
        return Err(NoMemory);
    };
    for line in text.lines() {
        if !line.starts_with('>') {
            answer(alloc, &mut case, line, &mut answered)?;
        }
    }
    Ok(answered)
}

// Adds a line, and below it what it answers.
fn answer(
    alloc: Global,
    case: &mut Case,
    line: &str,
    answered: &mut String,
) -> Result<(), NoMemory> {
    let mut said = String::new(alloc);
    let understood = case.follow(line, &mut said).is_some();
    write!(answered, "{line}\n")?;
    let said = if understood {
        said.as_str()
    } else {
        "not understood"
    };
    quote(answered, said)
}

// Adds each line of a text behind `> `.
fn quote(answered: &mut String, text: &str) -> Result<(), NoMemory> {
    for line in text.lines() {
        write!(answered, "> {line}\n")?;
    }
    Ok(())
}
