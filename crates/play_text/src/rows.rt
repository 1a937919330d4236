// The rows of the fates.
ghost use Rattle.std.specs.Prelude.{◌≡◌, ◌≢◌, ◌≤◌, ◌+◌, ◌∷◌, ◌++◌, [], true, IfOk, OnErr, OnOk, decimal, length, map};
ghost use Rattle.csv.specs.Writing.{default_writer, row_text, writer_pending, writer_under};
ghost use Rattle.play_text.specs.Texts.{fate_text, fates_header, rule_word, reason_word};
ghost use Rattle.play_text.specs.Names.{HasClass, name_of};
ghost use Rattle.play_text.specs.Ready.{IsBetweenRows, IsReady};

use crate::names::Names;
use crate::number::Number;
use altq_model::{Fate, Reason, Rule};
use csv::{Writer, WriterBuilder};
use play_base::NoMemory;
use std::alloc::Global;
use std::marker::Model;
use std::mem;

fn rule_name(rule: Rule) -> &'static str
    ensures word { result.now ≡ rule_word rule }
    ensures short { length result.now ≤ 8 }
{
    match rule {
        Rule::RealTime => "realtime",
        Rule::Share => "share",
        Rule::Own => "own",
        Rule::Borrow => "borrow",
    }
}

fn reason_name(reason: Reason) -> &'static str
    ensures word { result.now ≡ reason_word reason }
    ensures short { length result.now ≤ 8 }
{
    match reason {
        Reason::Full => "full",
        Reason::Early => "early",
        Reason::Forced => "forced",
    }
}

// No row takes more bytes: none of its numbers has more than 40 digits, a name has at most 64 letters and a word 8, and quotes would
// take as many once more, two bytes a field, and its separators.
const LONGEST_ROW: usize = 565;

// The start and the end of a packet that was dropped.
const NOTHING: &[u8] = &[];

// The numbers of a row. Those of the last sending stay, since most sendings start where the one before them ends.
#[derive(Drop)]
struct Digits {
    number: Number,
    at: Number,
    len: Number,
    times: Times,
}

// The start and the end of a sending.
#[derive(Drop)]
struct Times {
    start: Number,
    end: Number,
}

impl Times {
    // Writes a start, unless it is the end that was written last: then that is the start now.
    fn begin(&mut self, start: u64)
        ensures { self.new.start.value ≡ start }
    {
        if start == self.end.value() {
            mem::swap(&mut self.start, &mut self.end);
        } else {
            self.start.set(start);
        }
    }
}

/// Rows of fates that are gathered as text: comma-separated values, each row with a line feed at its end. Contracts see the text.
/// It grows as its rows come, and a row takes no allocation of its own.
#[derive(Drop)]
pub struct Rows {
    alloc: Global,
    // It holds back what it wrote last, until the text is asked for.
    writer: Writer<Vec<u8>>,
    // A bound of the length of the text, in bytes.
    most: usize,
    digits: Digits,
}

impl Model for Rows {
    ghost use Rattle.std.specs.Prelude.{ℕ, List, ◌++◌, ◌≤◌, length};
    ghost use Rattle.csv.specs.Writing.{writer_pending, writer_under};
    ghost use Rattle.play_text.specs.Ready.{IsBetweenRows};

    ghost Value = { List ℕ };

    ghost view = { λ r. (writer_under r.writer).items ++ writer_pending r.writer };

    ghost invariant = { λ r. IsBetweenRows r.writer × (length ((writer_under r.writer).items ++ writer_pending r.writer) ≤ r.most) };
}

// A writer that has written nothing, over these bytes.
pub(crate) fn writer_over(bytes: Vec<u8>) -> Writer<Vec<u8>>
    ensures ready { IsReady result }
    ensures text { (writer_under result).items ≡ bytes.items }
{
    WriterBuilder::new().from_writer(bytes)
}

impl Rows {
    /// No row. Does not allocate.
    pub fn new(alloc: Global) -> Rows
        ensures { result ≡ [] }
    {
        Rows {
            alloc,
            writer: writer_over(Vec::new(alloc)),
            most: 0,
            digits: Digits {
                number: Number::zero(),
                at: Number::zero(),
                len: Number::zero(),
                times: Times {
                    start: Number::zero(),
                    end: Number::zero(),
                },
            },
        }
    }

    /// A bound of the text's length in bytes, which rises by at most 565 with each row, and which `flush_pending` makes exact. Constant time.
    pub fn most(&self) -> usize
        ensures { length self.now ≤ result }
    {
        self.most
    }

    /// Makes the bound of the length exact. Takes the memory and the time of the rows that were held back, at most 8,192 bytes; the only
    /// error is lack of memory. The rows stay.
    pub fn flush_pending(&mut self) -> Result<(), NoMemory>
        ensures { self.new ≡ self.old }
    {
        match self.writer.flush() {
            Ok(()) => {
                self.most = self.writer.get_ref().len();
                Ok(())
            }
            Err(_) => Err(NoMemory),
        }
    }

    /// Takes the text of all rows out, and leaves no row. The only error is lack of memory, and then the rows are gone. Takes the memory
    /// and the time of the rows that were held back, at most 8,192 bytes.
    pub fn take_text(&mut self) -> Result<Vec<u8>, NoMemory>
        ensures text { IfOk result (λ text. text.items ≡ self.old) }
        ensures none { self.new ≡ [] }
    {
        let empty = writer_over(Vec::new(self.alloc));
        self.most = 0;
        match mem::replace(&mut self.writer, empty).into_inner() {
            Ok(text) => Ok(text),
            Err(_) => Err(NoMemory),
        }
    }

    /// Gives the memory of a text that was taken out to rows of which there is none. Does not allocate.
    pub fn reuse(&mut self, text: Vec<u8>)
        requires { self.old ≡ [] }
        ensures { self.new ≡ [] }
    {
        let mut room = text;
        room.clear();
        self.writer = writer_over(room);
    }

    /// Adds the row of a packet's fate: its number from 1, its arrival in nanoseconds, its length in bytes, the name of its class, how
    /// it was sent or why it was dropped, and for a sending its start and end in nanoseconds. The class is one of `names`. The only
    /// error is lack of memory, and then no row is left. Costs the length of the row, and a search for the class.
    #[inline(always)]
    pub fn add(
        &mut self,
        names: &Names,
        number: u64,
        at: u64,
        len: u32,
        class: u32,
        fate: &Fate,
    ) -> Result<(), NoMemory>
        requires { HasClass names.now class }
        ensures added { OnOk result (self.new ≡ self.old ++ fate_text number at len (name_of names.now class) fate.now) }
        ensures emptied { OnErr result (self.new ≡ []) }
    {
        let class = names.name(class);
        let most = self.most.checked_add(LONGEST_ROW);
        let written = add_fate(
            &mut self.writer,
            &mut self.digits,
            number,
            at,
            len,
            class,
            fate,
        );
        if let (true, Some(most)) = (written, most) {
            self.most = most;
            return Ok(());
        }
        renew(&mut self.writer, self.alloc);
        self.most = 0;
        Err(NoMemory)
    }
}

// Writes the row of a fate; false where memory was wanting. It is laid out where a fate is told, since a caller knows whether that is a
// sending or a drop, and then half of it goes.
#[inline(always)]
fn add_fate(
    writer: &mut Writer<Vec<u8>>,
    digits: &mut Digits,
    number: u64,
    at: u64,
    len: u32,
    class: &str,
    fate: &Fate,
) -> bool
    requires between { IsBetweenRows writer.old }
    requires class { length class.now ≤ 64 }
    ensures between { result ≡ true → IsBetweenRows writer.new }
    ensures text { result ≡ true → (writer_under writer.new).items ++ writer_pending writer.new
        ≡ ((writer_under writer.old).items ++ writer_pending writer.old) ++ fate_text number at len class.now fate.now }
    ensures longer { result ≡ true → length ((writer_under writer.new).items ++ writer_pending writer.new)
        ≤ length ((writer_under writer.old).items ++ writer_pending writer.old) + 565 }
{
    digits.number.follow(number);
    digits.at.set(at);
    digits.len.set(u64::from(len));
    match *fate {
        Fate::Sent { start, end, rule } => {
            if start != at {
                digits.times.begin(start);
            }
            digits.times.end.set(end);
            put_sent(writer, digits, class, rule_name(rule), start)
        }
        Fate::Dropped(reason) => put_dropped(writer, digits, class, reason_name(reason)),
    }
}

// Writes the row of a drop; false where memory was wanting.
#[inline(always)]
fn put_dropped(writer: &mut Writer<Vec<u8>>, digits: &Digits, class: &str, word: &str) -> bool
    requires between { IsBetweenRows writer.old }
    requires class { length class.now ≤ 64 }
    requires word { length word.now ≤ 8 }
    ensures between { result ≡ true → IsBetweenRows writer.new }
    ensures text { result ≡ true → (writer_under writer.new).items ++ writer_pending writer.new
        ≡ ((writer_under writer.old).items ++ writer_pending writer.old) ++ row_text default_writer (decimal digits.now.number.value
        ∷ decimal digits.now.at.value ∷ decimal digits.now.len.value ∷ class.now ∷ word.now ∷ [] ∷ [] ∷ []) }
    ensures longer { result ≡ true → length ((writer_under writer.new).items ++ writer_pending writer.new)
        ≤ length ((writer_under writer.old).items ++ writer_pending writer.old) + 565 }
{
    put(writer, digits, class, word, NOTHING, NOTHING)
}

// Writes the row of a sending that starts at this moment; false where memory was wanting.
#[inline(always)]
fn put_sent(
    writer: &mut Writer<Vec<u8>>,
    digits: &Digits,
    class: &str,
    word: &str,
    start: u64,
) -> bool
    requires between { IsBetweenRows writer.old }
    requires class { length class.now ≤ 64 }
    requires word { length word.now ≤ 8 }
    requires start { digits.now.at.value ≢ start → digits.now.times.start.value ≡ start }
    ensures between { result ≡ true → IsBetweenRows writer.new }
    ensures text { result ≡ true → (writer_under writer.new).items ++ writer_pending writer.new
        ≡ ((writer_under writer.old).items ++ writer_pending writer.old) ++ row_text default_writer (decimal digits.now.number.value
        ∷ decimal digits.now.at.value ∷ decimal digits.now.len.value ∷ class.now ∷ word.now ∷ decimal start ∷ decimal digits.now.times.end.value ∷ []) }
    ensures longer { result ≡ true → length ((writer_under writer.new).items ++ writer_pending writer.new)
        ≤ length ((writer_under writer.old).items ++ writer_pending writer.old) + 565 }
{
    let begun = with_value(&digits.at, &digits.times.start, start);
    let ended = digits.times.end.as_bytes();
    put(writer, digits, class, word, begun.as_bytes(), ended)
}

// The first of two numbers where it has this value, else the second, which has it then.
fn with_value<'a>(one: &'a Number, other: &'a Number, value: u64) -> &'a Number
    requires { one.now.value ≢ value → other.now.value ≡ value }
    ensures { result.now.value ≡ value }
{
    if one.value() == value { one } else { other }
}

// Writes a row of these numbers and fields; false where memory was wanting. All are in one array, which `csv` writes, so they have one
// lifetime.
#[inline(always)]
fn put<'a>(
    writer: &mut Writer<Vec<u8>>,
    digits: &'a Digits,
    class: &'a str,
    word: &'a str,
    start: &'a [u8],
    end: &'a [u8],
) -> bool
    requires between { IsBetweenRows writer.old }
    requires class { length class.now ≤ 64 }
    requires word { length word.now ≤ 8 }
    requires start { length start.now ≤ 40 }
    requires end { length end.now ≤ 40 }
    ensures between { result ≡ true → IsBetweenRows writer.new }
    ensures text { result ≡ true → (writer_under writer.new).items ++ writer_pending writer.new
        ≡ ((writer_under writer.old).items ++ writer_pending writer.old) ++ row_text default_writer (decimal digits.now.number.value
        ∷ decimal digits.now.at.value ∷ decimal digits.now.len.value ∷ class.now ∷ word.now ∷ start.now ∷ end.now ∷ []) }
    ensures longer { result ≡ true → length ((writer_under writer.new).items ++ writer_pending writer.new)
        ≤ length ((writer_under writer.old).items ++ writer_pending writer.old) + 565 }
{
    let fields = [
        digits.number.as_bytes(),
        digits.at.as_bytes(),
        digits.len.as_bytes(),
        class.as_bytes(),
        word.as_bytes(),
        start,
        end,
    ];
    add_row(writer, &fields)
}

// Puts a new writer over nothing in place of one. It is not inlined, since a writer is large, and a function that makes one pays for
// it at its entry.
#[cold]
#[inline(never)]
fn renew(writer: &mut Writer<Vec<u8>>, alloc: Global)
    ensures ready { IsReady writer.new }
    ensures text { (writer_under writer.new).items ≡ [] }
{
    *writer = writer_over(Vec::new(alloc));
}

// Writes a row, which may be held back; false where memory was wanting.
fn add_row(writer: &mut Writer<Vec<u8>>, fields: &[&[u8]]) -> bool
    requires { IsBetweenRows writer.old }
    ensures between { result ≡ true → IsBetweenRows writer.new }
    ensures text { result ≡ true → (writer_under writer.new).items ++ writer_pending writer.new
        ≡ ((writer_under writer.old).items ++ writer_pending writer.old) ++ row_text default_writer (map (λ f. f.now) fields.now) }
{
    match writer.write_fields(fields) {
        Ok(()) => true,
        Err(_) => false,
    }
}

// Writes a row at once; false where memory was wanting.
pub(crate) fn write_row(writer: &mut Writer<Vec<u8>>, fields: &[&[u8]]) -> bool
    requires { IsReady writer.old }
    ensures ready { result ≡ true → IsReady writer.new }
    ensures text { result ≡ true → (writer_under writer.new).items ≡ (writer_under writer.old).items ++ row_text default_writer (map (λ f. f.now) fields.now) }
{
    add_row(writer, fields) && writer.flush().is_ok()
}

/// The row of a packet's fate by itself, as `Rows::add` writes it. The only error is lack of memory.
pub fn fate_row(
    alloc: Global,
    names: &Names,
    number: u64,
    at: u64,
    len: u32,
    class: u32,
    fate: &Fate,
) -> Result<Vec<u8>, NoMemory>
    requires { HasClass names.now class }
    ensures { IfOk result (λ row. row.items ≡ fate_text number at len (name_of names.now class) fate.now) }
{
    let mut rows = Rows::new(alloc);
    rows.add(names, number, at, len, class, fate)?;
    rows.take_text()
}

/// The header row of the fates.
pub fn fates_header() -> &'static [u8]
    ensures { result.now ≡ fates_header }
{
    b"number,arrival,length,class,fate,start,end\n"
}
