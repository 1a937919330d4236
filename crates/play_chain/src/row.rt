// The rows of the text of paths.
ghost use Rattle.std.specs.Prelude.{◌≡◌, ◌≤◌, ◌<◌, ◌∷◌, ◌++◌, [], IfOk, OnOk, length, map};
ghost use Rattle.csv.specs.Writing.{default_writer, row_text, writer_pending, writer_under};
ghost use Rattle.play_chain.specs.Tables.{in_tables};
ghost use Rattle.play_chain.specs.Text.{path_header, path_row, rows_below};
ghost use Rattle.play_chain.specs.Written.{Continues, IsBetweenRows};

use crate::firsts::First;
use crate::outcome::{Outcome, Passage};
use crate::seconds::Second;
use crate::table::passage_of;
use csv::{Writer, WriterBuilder};
use itoa::Buffer;
use play_base::NoMemory;
use std::alloc::Global;

/// The head row.
pub fn path_header() -> &'static [u8]
    ensures { result.now ≡ path_header }
{
    b"number,arrival,outcome,end\n"
}

// A writer that has written nothing, behind these bytes.
fn writer_over(bytes: Vec<u8>) -> Writer<Vec<u8>>
    ensures between { IsBetweenRows result }
    ensures text { (writer_under result).items ++ writer_pending result ≡ bytes.items }
{
    WriterBuilder::new().from_writer(bytes)
}

// Writes a row of these fields. All are in one array, which `csv` writes, so they have one lifetime.
fn write_fields<'a>(
    writer: &mut Writer<Vec<u8>>,
    number: &'a str,
    arrival: &'a str,
    word: &'a str,
    end: &'a str,
) -> Result<(), NoMemory>
    requires { IsBetweenRows writer.old }
    ensures between { OnOk result (IsBetweenRows writer.new) }
    ensures text { OnOk result ((writer_under writer.new).items ++ writer_pending writer.new
        ≡ ((writer_under writer.old).items ++ writer_pending writer.old)
        ++ row_text default_writer (number.now ∷ arrival.now ∷ word.now ∷ end.now ∷ [])) }
{
    let fields = [
        number.as_bytes(),
        arrival.as_bytes(),
        word.as_bytes(),
        end.as_bytes(),
    ];
    match writer.write_fields(&fields) {
        Ok(()) => Ok(()),
        Err(_) => Err(NoMemory),
    }
}

// Writes the row of a packet behind those that were written. The only error is lack of memory.
fn add_row(writer: &mut Writer<Vec<u8>>, number: u64, passage: Passage) -> Result<(), NoMemory>
    requires { IsBetweenRows writer.old }
    ensures between { OnOk result (IsBetweenRows writer.new) }
    ensures text { OnOk result ((writer_under writer.new).items ++ writer_pending writer.new
        ≡ ((writer_under writer.old).items ++ writer_pending writer.old) ++ path_row number passage) }
{
    let (mut number_text, mut arrival_text, mut end_text) = (
        Buffer::new(),
        Buffer::new(),
        Buffer::new(),
    );
    let number = number_text.format(number);
    let arrival = arrival_text.format(passage.arrival);
    match passage.outcome {
        Outcome::DroppedFirst => write_fields(writer, number, arrival, "dropped1", ""),
        Outcome::DroppedSecond => write_fields(writer, number, arrival, "dropped2", ""),
        Outcome::Sent(None) => write_fields(writer, number, arrival, "sent", ""),
        Outcome::Sent(Some(end)) => {
            let end = end_text.format(end);
            write_fields(writer, number, arrival, "sent", end)
        }
    }
}

// Writes the rows of the numbers from `from` on and below `to` that have one. The only error is lack of memory.
fn add_rows(
    writer: &mut Writer<Vec<u8>>,
    firsts: &[First],
    seconds: &[Second],
    from: usize,
    to: usize,
) -> Result<(), NoMemory>
    requires between { IsBetweenRows writer.old }
    requires order { from ≤ to }
    ensures between { OnOk result (IsBetweenRows writer.new) }
    ensures text { OnOk result (Continues ((writer_under writer.old).items ++ writer_pending writer.old)
        ((writer_under writer.new).items ++ writer_pending writer.new) from to (in_tables firsts.now seconds.now)) }
{
    'rows: for number in from..to {
        if let Some(passage) = passage_of(firsts, seconds, number as u64) {
            add_row(writer, number as u64, passage)?;
        }
    }
    Ok(())
}

/// The text of the passages of two tables: the head row, and a row for each number that has one. The only error is lack of memory.
pub fn table_text(alloc: Global, firsts: &[First], seconds: &[Second]) -> Result<Vec<u8>, NoMemory>
    ensures { IfOk result (λ text. text.items ≡ path_header ++ rows_below (length firsts.now) (in_tables firsts.now seconds.now)) }
{
    let mut text = Vec::new(alloc);
    text.extend_from_slice(path_header())?;
    let mut writer = writer_over(text);
    add_rows(&mut writer, firsts, seconds, 0, firsts.len())?;
    match writer.into_inner() {
        Ok(text) => Ok(text),
        Err(_) => Err(NoMemory),
    }
}

/// Some rows of the text, and the number behind theirs.
#[derive(Drop)]
pub struct Piece {
    pub text: Vec<u8>,
    pub next: usize,
}

// The most numbers of a piece. A row has fewer than 80 bytes.
const PIECE: usize = 1024;

// The first number behind a piece that begins at `from`, where `count` numbers have a place.
fn behind_piece(from: usize, count: usize) -> usize
    requires { from ≤ count }
    ensures on { from < count → from < result }
    ensures order { from ≤ result }
    ensures within { result ≤ count }
{
    if count - from < PIECE {
        count
    } else {
        from + PIECE
    }
}

/// The rows of at most 1,024 numbers from `from` on. The only error is lack of memory.
pub fn piece_from(
    alloc: Global,
    firsts: &[First],
    seconds: &[Second],
    from: usize,
) -> Result<Piece, NoMemory>
    requires { from ≤ length firsts.now }
    ensures rows { IfOk result (λ p. rows_below p.next (in_tables firsts.now seconds.now)
        ≡ rows_below from (in_tables firsts.now seconds.now) ++ p.text.items) }
    ensures on { IfOk result (λ p. from < length firsts.now → from < p.next) }
    ensures within { IfOk result (λ p. p.next ≤ length firsts.now) }
{
    let next = behind_piece(from, firsts.len());
    let mut writer = writer_over(Vec::new(alloc));
    add_rows(&mut writer, firsts, seconds, from, next)?;
    match writer.into_inner() {
        Ok(text) => Ok(Piece { text, next }),
        Err(_) => Err(NoMemory),
    }
}
