//! The statements of a text.
ghost use Rattle.std.specs.Prelude.{◌≡◌, ◌+◌, ◌≤◌, ◌++◌, [], length, IfOk, OnOk};
ghost use Rattle.line_text.specs.Words.{bytes_of, parts_of};
ghost use Rattle.conf_lines.specs.Grammar.{seen, start};
ghost use Rattle.conf_lines.specs.Texts.{statements_of, Takes, statement_of, by_words, line_feeds, read_from, as_statement, behind, fault_at, item_of, before};

use crate::fault::{ConfKind, ConfPlace};
use crate::grammar::{Next, Place, Refusal, Step};
use crate::item::{Item, Items, What};
use crate::step::{end, step};
use line_text::{Line, LineFault, Token, next_line, word_count, words};
use play_base::NoMemory;
use std::alloc::Global;

/// Which statement a line is.
#[derive(Clone, Copy)]
pub enum Form {
    Interface,
    ClassHfsc,
    ClassCbq,
    Filter,
    Filter6,
    Conditioner,
    /// The fault stands before the form is known.
    Unread,
}

/// A statement, read up to its first fault.
#[derive(Drop)]
pub struct Statement {
    /// The number of its first physical line, from 1.
    pub line: u64,
    /// Which statement it is.
    pub form: Form,
    /// What its words say, up to the fault.
    pub items: Items,
    /// One more than the number of the line's words.
    pub end: u64,
    /// Its first fault.
    pub fault: Option<ConfPlace>,
}

/// The statements of a text, in order, one for each logical line that has words or is too long.
///
/// Each is read up to its first fault, which it keeps. Returns `NoMemory` where memory ran out for the list, a name or the
/// words of a line. Takes the text's length in time, and its statements and the words of one line in memory.
/// Source: altq.conf(5).
pub fn statements(alloc: Global, text: &[u8]) -> Result<Vec<Statement>, NoMemory>
    ensures { IfOk result (λ found. found.items ≡ statements_of text.now) }
{
    let mut found = Vec::new(alloc);
    let mut from = 0;
    let mut number = 1;
    while let Some(line) = next_line(text, from, number) {
        let statement = statement_of(alloc, text, &line)?;
        add_statement(&mut found, statement)?;
        number += line_feeds(&text[from..line.to]);
        from = line.to;
    }
    Ok(found)
}

/// Adds a statement, if there is one.
fn add_statement(found: &mut Vec<Statement>, statement: Option<Statement>) -> Result<(), NoMemory>
    ensures { OnOk result (found.new.items ≡ found.old.items ++ before statement []) }
{
    match statement {
        None => Ok(()),
        Some(statement) => match found.push(statement) {
            Ok(()) => Ok(()),
            Err(_) => Err(NoMemory),
        },
    }
}

/// How many line feeds a text has.
fn line_feeds(text: &[u8]) -> u64
    ensures value { result ≡ line_feeds text.now }
    ensures within { result ≤ length text.now }
{
    let mut count = 0;
    for byte in text {
        if *byte == b'\n' {
            count += 1;
        }
    }
    count
}

/// The statement of a logical line, if it is one.
fn statement_of(alloc: Global, text: &[u8], line: &Line) -> Result<Option<Statement>, NoMemory>
    requires order { line.now.from ≤ line.now.to }
    requires within { line.now.to ≤ length text.now }
    ensures { IfOk result (λ found. found ≡ statement_of line.now.number (bytes_of text.now line.now)) }
{
    match words(alloc, text, line) {
        Ok(found) => by_words(alloc, line.number, found.as_slice()),
        Err(LineFault::TooLong) => Ok(Some(Statement {
            line: line.number,
            form: Form::Unread,
            items: Items::of(Vec::new(alloc)),
            end: word_count(text, line) + 1,
            fault: fault_at(line.number, 0, Some(ConfKind::TooLong)),
        })),
        Err(LineFault::NoMemory) => Err(NoMemory),
    }
}

/// The statement of the words of a line, if there are any.
fn by_words(alloc: Global, line: u64, words: &[Token]) -> Result<Option<Statement>, NoMemory>
    ensures { IfOk result (λ found. found ≡ by_words line (parts_of words.now)) }
{
    if words.is_empty() {
        return Ok(None);
    }
    match read(alloc, line, words) {
        Ok(statement) => Ok(Some(statement)),
        Err(NoMemory) => Err(NoMemory),
    }
}

/// Reads the words of a line.
fn read(alloc: Global, line: u64, words: &[Token]) -> Result<Statement, NoMemory>
    ensures { IfOk result (λ found. found ≡ as_statement line (length words.now + 1) (read_from line (parts_of words.now) start 1)) }
{
    let mut items = Vec::new(alloc);
    match read_words(alloc, line, words, &mut items) {
        Ok((form, fault)) => Ok(Statement {
            line,
            form,
            items: Items::of(items),
            end: words.len() as u64 + 1,
            fault,
        }),
        Err(NoMemory) => Err(NoMemory),
    }
}

/// Reads words, and adds their items: the form where the reading stops, and the fault there.
fn read_words(
    alloc: Global,
    line: u64,
    words: &[Token],
    items: &mut Vec<Item>,
) -> Result<(Form, Option<ConfPlace>), NoMemory>
    ensures { IfOk result (λ stop. behind items.old.items (read_from line (parts_of words.now) start 1) ≡ record {
      form = stop.0;
      items = items.new.items;
      fault = stop.1;
    }) }
{
    let mut place = Place {
        form: Form::Unread,
        next: Next::Statement,
        parts: &[],
        stands: true,
        completed: false,
    };
    let mut at = 1;
    let mut left = words;
    while let [word, rest @ ..] = left {
        match take(alloc, items, at, place, word) {
            Ok(after) => place = after,
            Err(Refusal::Kind(kind)) => {
                return Ok((place.form, fault_at(line, at, Some(kind))));
            }
            Err(Refusal::NoMemory) => return Err(NoMemory),
        }
        at += 1;
        left = rest;
    }
    Ok((place.form, fault_at(line, at, end(place))))
}

/// The place behind a word, whose item is added.
fn take(
    alloc: Global,
    items: &mut Vec<Item>,
    at: u64,
    place: Place,
    word: &Token,
) -> Result<Place, Refusal>
    ensures { Takes at (seen place) word.now.parts.now items.old.items items.new.items result }
{
    match step(alloc, place, word) {
        Ok(Step { what, after }) => match add_item(items, at, what) {
            Ok(()) => Ok(after),
            Err(NoMemory) => Err(Refusal::NoMemory),
        },
        Err(refusal) => Err(refusal),
    }
}

/// The fault of a kind at a word of a line.
fn fault_at(line: u64, word: u64, kind: Option<ConfKind>) -> Option<ConfPlace>
    ensures { result ≡ fault_at line word kind }
{
    match kind {
        None => None,
        Some(kind) => Some(ConfPlace { line, word, kind }),
    }
}

/// Adds the item of a word, if it gives more than which statement it is.
fn add_item(items: &mut Vec<Item>, word: u64, what: Option<What>) -> Result<(), NoMemory>
    ensures { OnOk result (items.new.items ≡ items.old.items ++ item_of word what) }
{
    match what {
        None => Ok(()),
        Some(what) => match items.push(Item { word, what }) {
            Ok(()) => Ok(()),
            Err(_) => Err(NoMemory),
        },
    }
}
