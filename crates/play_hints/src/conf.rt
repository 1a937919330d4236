// What is wrong with a configuration.

use crate::fault::{FOREIGN, STATEMENTS, fault_form, row_of, word_at};
use crate::line::{add_form, shown_byte};
use crate::options::slot_at;
use conf_lines::{ConfKind, ConfPlace, Slots};
use line_text::{Line, Token, next_line, words};
use std::alloc::{AllocError, Global};

// The greatest column at which a line is shown from its first byte.
const WIDE: usize = 60;

// The most bytes of a line that are shown.
const SHOWN: usize = 100;

// The most bytes of a word that are shown before what is wrong with it.
const LONG: usize = 64;

// The bytes of the logical line that begins with a physical line, counted from 1.
fn logical_line(text: &[u8], number: u64) -> Option<&[u8]> {
    let (mut line, mut from) = (1u64, 0usize);
    for (at, byte) in text.iter().enumerate() {
        if *byte == b'\n' && line < number {
            line = line.saturating_add(1);
            from = at.saturating_add(1);
        }
    }
    if line != number {
        return None;
    }
    let rest = text.get(from..)?;
    rest.get(..next_line(rest, 0, number)?.to)
}

// The words of a logical line; none where it is too long, or memory is short.
fn words_of(alloc: Global, bytes: &[u8]) -> Vec<Token<'_>> {
    let line = Line {
        number: 1,
        from: 0,
        to: bytes.len(),
    };
    match words(alloc, bytes, &line) {
        Ok(found) => found,
        Err(_) => Vec::new(alloc),
    }
}

// Where a word stands first from a place on.
fn find(bytes: &[u8], from: usize, word: &[u8]) -> Option<usize> {
    for at in from..bytes.len() {
        if bytes.get(at..).unwrap_or_default().starts_with(word) {
            return Some(at);
        }
    }
    None
}

// Where the first words of a line end.
fn end_of(bytes: &[u8], words: &[Token]) -> Option<usize> {
    let mut at = 0usize;
    for word in words {
        at = find(bytes, at, word.parts)?.saturating_add(word.parts.len());
    }
    Some(at)
}

// The physical line of a logical one in which a place stands, and the column there.
fn physical(bytes: &[u8], place: usize) -> (&[u8], usize) {
    let (mut from, mut to) = (0usize, bytes.len());
    for (at, byte) in bytes.iter().enumerate() {
        if *byte == b'\n' && at < place {
            from = at.saturating_add(1);
        } else if *byte == b'\n' {
            to = to.min(at);
        }
    }
    let line = bytes.get(from..to).unwrap_or_default();
    (line, place.saturating_sub(from))
}

// Adds the name of the interface that a line declares, behind what is given; says whether it declares one.
fn add_interface(
    alloc: Global,
    said: &mut String,
    before: &str,
    bytes: &[u8],
) -> Result<bool, AllocError> {
    let words = words_of(alloc, bytes);
    let is_interface = word_at(&words, 0) == b"interface".as_slice();
    if is_interface {
        add_form(said, before, "", word_at(&words, 1), &[])?;
    }
    Ok(is_interface)
}

// Adds what to say where the interface asked for is absent: which ones there are.
fn add_absent(
    alloc: Global,
    said: &mut String,
    name: &str,
    interface: &[u8],
    text: &[u8],
) -> Result<(), AllocError> {
    add_form(said, "@: no interface %", name, interface, &[])?;
    let mut has_one = false;
    let mut rest = text;
    for _ in 0..=text.len() {
        let Some(line) = next_line(rest, 0, 1) else {
            break;
        };
        let before = if has_one { ", %" } else { ": it has %" };
        if add_interface(alloc, said, before, &rest[..line.to])? {
            has_one = true;
        }
        rest = &rest[line.to..];
    }
    if !has_one {
        let begin = ", and no other: begin with: interface % bandwidth 10M hfsc";
        add_form(said, begin, "", interface, &[])?;
    }
    said.push('\n')
}

// Adds a line at fault as it is shown, tabs as blanks, and carets below its word at a column, with a note behind them.
fn add_source(
    said: &mut String,
    line: &[u8],
    column: usize,
    length: usize,
    note: &str,
) -> Result<(), AllocError> {
    let cut = if column > WIDE { column - 40 } else { 0 };
    said.push_str("  ")?;
    for byte in line.iter().skip(cut).take(SHOWN) {
        let shown = if *byte == b'\t' {
            b' '
        } else {
            shown_byte(*byte)
        };
        said.push(char::from(shown))?;
    }
    said.push_str("\n  ")?;
    add_carets(said, column.saturating_sub(cut), length.clamp(1, 40))?;
    said.push_str(note)?;
    said.push('\n')
}

// Adds blanks, and carets behind them.
fn add_carets(said: &mut String, blanks: usize, carets: usize) -> Result<(), AllocError> {
    for at in 0..blanks.saturating_add(carets) {
        said.push(if at < blanks { ' ' } else { '^' })?;
    }
    Ok(())
}

// Adds the line on a fault: the name, the number of the line, the word at fault if there is one, and what is wrong with it.
fn add_fault(
    said: &mut String,
    name: &str,
    number: u64,
    kind: ConfKind,
    words: &[Token],
    at: usize,
) -> Result<(), AllocError> {
    let word = word_at(words, at);
    let begin = if word.is_empty() { "@:#: " } else { "@:#: %: " };
    let shown = word.get(..LONG).unwrap_or(word);
    add_form(said, begin, name, shown, &[number])?;
    let slot = slot_at(words, at);
    let bounds = match slot {
        Slots::Rate(low, high) | Slots::Whole(low, high) => [low, high],
        _ => [0, 0],
    };
    let form = fault_form(kind, words, at, slot);
    let written = row_of(&STATEMENTS, words).as_bytes();
    add_form(said, form, "", written, &bounds)?;
    said.push('\n')
}

// Adds what to say of a fault of a line with these words: below what is wrong that line with carets under its word, or behind its last
// word where one is missing.
fn add_hint(
    said: &mut String,
    name: &str,
    place: ConfPlace,
    bytes: &[u8],
    words: &[Token],
) -> Result<(), AllocError> {
    let at = place.word.wrapping_sub(1) as usize;
    add_fault(said, name, place.line, place.kind, words, at)?;
    if place.word == 0 {
        return Ok(());
    }
    let length = word_at(words, at).len();
    let front = words.get(..=at).unwrap_or(words);
    let Some(end) = end_of(bytes, front) else {
        return Ok(());
    };
    let (line, column) = physical(bytes, end.saturating_sub(length));
    let note = if at == 0 { row_of(&FOREIGN, words) } else { "" };
    add_source(said, line, column, length, note)
}

// Adds what to say of a fault of a line.
fn add_line_hint(
    alloc: Global,
    said: &mut String,
    name: &str,
    place: ConfPlace,
    bytes: &[u8],
) -> Result<(), AllocError> {
    let words = words_of(alloc, bytes);
    add_hint(said, name, place, bytes, &words)
}

/// What to say of a configuration that is refused: its name and line, the word at fault, what is wrong and what to write; below it
/// that line with carets under the word. Where the interface asked for is absent, which ones there are. No text where the place is
/// not in the text. `Err` comes only where there is no memory.
pub fn conf_hint(
    alloc: Global,
    name: &str,
    interface: &str,
    text: &[u8],
    place: ConfPlace,
) -> Result<String, AllocError> {
    let mut said = String::new(alloc);
    if place.line == 0 {
        add_absent(alloc, &mut said, name, interface.as_bytes(), text)?;
        return Ok(said);
    }
    if let Some(bytes) = logical_line(text, place.line) {
        add_line_hint(alloc, &mut said, name, place, bytes)?;
    }
    Ok(said)
}
