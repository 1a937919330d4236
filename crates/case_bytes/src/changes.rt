// Changes of bytes, of a capture or of a file.

use crate::words::number;
use std::alloc::Global;

/// How bytes change: some are added in hexadecimal, as many as is said are left, some are overwritten from a place on, or words are put
/// in the place of a line of text, from 1, or behind the last, or leave that line out.
#[derive(Clone, Copy)]
pub enum How {
    Add,
    Cut,
    Put,
    Row,
}

/// Changes bytes as the words of a line say.
pub fn change(alloc: Global, bytes: &mut Vec<u8>, how: How, words: &[&str]) -> Option<()> {
    let (word, rest) = words.split_first()?;
    match how {
        How::Add => add(alloc, bytes, word),
        How::Cut => cut(bytes, word),
        How::Put => put(alloc, bytes, word, rest),
        How::Row => put_row(alloc, bytes, word, rest),
    }
}

/// Adds the bytes of hexadecimal digits.
pub fn add(alloc: Global, bytes: &mut Vec<u8>, digits: &str) -> Option<()> {
    let more = hex::decode(alloc, digits).ok()?;
    bytes.extend_from_slice(&more).ok()
}

fn cut(bytes: &mut Vec<u8>, count: &str) -> Option<()> {
    bytes.truncate(number(count)? as usize);
    Some(())
}

fn put(alloc: Global, bytes: &mut [u8], at: &str, digits: &[&str]) -> Option<()> {
    let (at, digits) = (number(at)? as usize, digits.first()?);
    let piece = hex::decode(alloc, *digits).ok()?;
    overwrite(bytes, at, &piece)
}

fn overwrite(bytes: &mut [u8], from: usize, piece: &[u8]) -> Option<()> {
    let mut at = from;
    for byte in piece {
        *bytes.get_mut(at)? = *byte;
        at = at.wrapping_add(1);
    }
    Some(())
}

fn put_row(alloc: Global, bytes: &mut Vec<u8>, line: &str, words: &[&str]) -> Option<()> {
    let line = number(line)?;
    let row = words.join(alloc, " ").ok()?;
    *bytes = with_row(alloc, bytes, line, row.as_str())?;
    Some(())
}

// A text with other words in the place of a line.
fn with_row(alloc: Global, bytes: &[u8], line: u64, other: &str) -> Option<Vec<u8>> {
    let text = str::from_utf8(bytes).unwrap_or_default();
    let mut changed = Vec::new(alloc);
    push_rows(&mut changed, text, line, other)?;
    Some(changed)
}

// Adds the lines of a text, with another in the place of one.
fn push_rows(changed: &mut Vec<u8>, text: &str, line: u64, other: &str) -> Option<()> {
    let mut here: u64 = 0;
    for row in text.lines() {
        here = here.wrapping_add(1);
        push_row(changed, if here == line { other } else { row })?;
    }
    if here < line {
        return push_row(changed, other);
    }
    Some(())
}

// Adds a line, unless it is empty.
fn push_row(text: &mut Vec<u8>, row: &str) -> Option<()> {
    if row.is_empty() {
        return Some(());
    }
    text.extend_from_slice(row.as_bytes()).ok()?;
    text.push(b'\n').ok()
}
