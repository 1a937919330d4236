//! The words of a logical line.
ghost use Rattle.std.specs.Prelude.{◌≡◌, ◌+◌, ◌<◌, ◌≤◌, ◌++◌, ◌↔◌, length, slice_index, IfOk, OnOk, if◌then◌else◌, IsErrOf};
ghost use Rattle.line_text.specs.Lines.{continuation_len, joined, longest_line};
ghost use Rattle.line_text.specs.Words.{is_blank, bytes_of, words_in, words_of, parts_of, AreCountedFrom, word_list};
ghost use Rattle.line_text.specs.declared.word.LineFault.TheVariants.{NoMemory};

use crate::line::{Line, continuation_len, ends_line, joined_len};
use std::alloc::{AllocError, AllocFailed, Global};

/// The most bytes that a joined line may have.
const LONGEST_LINE: usize = 4096;

/// A word of a line.
#[derive(Clone, Copy)]
pub struct Token<'a> {
    /// Its number in its logical line, from 1.
    pub index: u64,
    /// Its bytes, as they stand in the text.
    pub parts: &'a [u8],
}

/// Why the words of a line cannot be had.
#[derive(Clone, Copy, Debug, PartialEq, Eq)]
pub enum LineFault {
    /// The joined line has more than 4,096 bytes. Its comment and its line end do not count, and a continuation is one.
    TooLong,
    /// Memory ran out.
    NoMemory,
}

impl From<AllocError> for LineFault {
    ghost from_gives = { λ _ e. e ≡ NoMemory };

    fn from(_error: AllocError) -> LineFault {
        LineFault::NoMemory
    }
}

impl<T: Drop> From<AllocFailed<T>> for LineFault {
    ghost from_gives = { λ _ e. e ≡ NoMemory };

    fn from(_error: AllocFailed<T>) -> LineFault {
        LineFault::NoMemory
    }
}

/// The words of a logical line of a text, in order, each with its number.
///
/// `line` is one that `next_line` answers for the text. Answers `TooLong` exactly where the joined line has more than 4,096
/// bytes, and `NoMemory` where memory ran out for the list. Takes the line's length in time. Source: altq.conf(5).
pub fn words<'a>(alloc: Global, text: &'a [u8], line: &Line) -> Result<Vec<Token<'a>>, LineFault>
    requires order { line.now.from ≤ line.now.to }
    requires within { line.now.to ≤ length text.now }
    ensures words { IfOk result (λ found. parts_of found.items ≡ words_in text.now line.now) }
    ensures indexes { IfOk result (λ found. AreCountedFrom 1 found.items) }
    ensures too_long { IsErrOf result LineFault.TooLong ↔ (longest_line < length (joined (bytes_of text.now line.now))) }
{
    let bytes = &text[line.from..line.to];
    if joined_len(bytes) > LONGEST_LINE {
        return Err(LineFault::TooLong);
    }
    match split(alloc, bytes) {
        Ok(found) => Ok(found),
        Err(AllocError) => Err(LineFault::NoMemory),
    }
}

/// How many words a logical line of a text has, also where it is too long for `words`.
///
/// `line` is one that `next_line` answers for the text. Takes the line's length in time and no memory.
pub fn word_count(text: &[u8], line: &Line) -> u64
    requires order { line.now.from ≤ line.now.to }
    requires within { line.now.to ≤ length text.now }
    ensures value { result ≡ length (words_in text.now line.now) }
    ensures within { result ≤ length text.now }
{
    count(&text[line.from..line.to])
}

/// How many words a line's bytes have.
fn count(line: &[u8]) -> u64
    ensures value { result ≡ length (words_of (joined line.now)) }
    ensures within { result ≤ length line.now }
{
    let mut found = 0;
    let mut start = 0;
    let mut at = 0;
    while at < line.len() && !ends_line(line[at]) {
        let blank = blank_len(&line[at..]);
        if blank == 0 {
            at += 1;
        } else {
            found += one_if(start < at);
            at += blank;
            start = at;
        }
    }
    found + one_if(start < at)
}

/// 1 if a word is there, else 0.
fn one_if(is_there: bool) -> u64
    ensures { result ≡ (if is_there then 1 else 0) }
{
    if is_there { 1 } else { 0 }
}

/// The words of a line's bytes.
fn split(alloc: Global, line: &[u8]) -> Result<Vec<Token<'_>>, AllocError>
    ensures words { IfOk result (λ found. parts_of found.items ≡ words_of (joined line.now)) }
    ensures indexes { IfOk result (λ found. AreCountedFrom 1 found.items) }
{
    let mut found = Vec::new(alloc);
    let mut start = 0;
    let mut at = 0;
    while at < line.len() && !ends_line(line[at]) {
        let blank = blank_len(&line[at..]);
        if blank == 0 {
            at += 1;
        } else {
            add_word(&mut found, &line[start..at])?;
            at += blank;
            start = at;
        }
    }
    add_word(&mut found, &line[start..at])?;
    Ok(found)
}

/// Adds the word of these bytes, if there are any.
fn add_word<'a>(found: &mut Vec<Token<'a>>, parts: &'a [u8]) -> Result<(), AllocError>
    ensures words { OnOk result (parts_of found.new.items ≡ parts_of found.old.items ++ word_list parts.now) }
    ensures indexes { OnOk result (AreCountedFrom 1 found.old.items → AreCountedFrom 1 found.new.items) }
{
    if !parts.is_empty() {
        let index = found.len() as u64 + 1;
        found.push(Token { index, parts })?;
    }
    Ok(())
}

/// How many bytes the blank at the front of a text has: 2 or 3 where it is a continuation, and 0 where no blank is there.
fn blank_len(text: &[u8]) -> usize
    requires { 0 < length text.now }
    ensures value { result ≡ (if is_blank (slice_index text.now 0) then 1 else continuation_len text.now) }
    ensures within { result ≤ length text.now }
{
    if is_blank(text[0]) {
        1
    } else {
        continuation_len(text)
    }
}

fn is_blank(byte: u8) -> bool
    ensures { result ≡ is_blank byte }
{
    matches!(byte, b' ' | b'\t' | b'\r' | b'[' | b']')
}
