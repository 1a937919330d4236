// What is wrong with the files of a run, and what was counted of one that is done.

use crate::line::line;
use file_plans::Part;
use file_tests::Test;
use std::alloc::{AllocError, Global};

/// What is said where memory ran out; it takes none.
pub const OUT_OF_MEMORY: &str =
    "memory: none was left: free some, or raise its limit (ulimit -v)\n";

/// What is said where a word of the command line is no UTF-8.
pub const NO_UTF8: &str =
    "altqplay: a word is no UTF-8: rename that file, or name it through a link\n";

/// What to say of a file that could not be opened, read, created or written, by what the machine said of it.
pub fn file_hint(alloc: Global, name: &str, fault: &str) -> Result<String, AllocError> {
    line(alloc, "@: %", name, fault.as_bytes(), &[])
}

/// What to say of a configuration or of a given file that is too long.
pub fn long_hint(alloc: Global, name: &str, part: Part) -> Result<String, AllocError> {
    let form = match part {
        Part::Configuration => {
            "@: more than 1048576 bytes: is it a configuration? if so leave out its comments"
        }
        _ => "@: more than 2^30 bytes: check a shorter play",
    };
    line(alloc, form, name, b"", &[])
}

/// What to say of a given file that fails a test at a row of the fates, the head row being row 0. `Err` comes only where
/// there is no memory.
pub fn refuted_hint(alloc: Global, name: &str, row: u64, test: Test) -> Result<String, AllocError> {
    let broken = match test {
        Test::Text => "no row as a play writes it: number,arrival,length,class,fate,start,end",
        Test::Reading =>
            "number, arrival, length or class is not that packet's, or its class has no such fate",
        Test::EachOnce => "the number stands twice, or a number is missing",
        Test::Order =>
            "out of order: in a class sendings and drops go by number, starts do not fall, and a drop stands where its packet arrives",
        Test::Moments =>
            "the start is before the arrival, or before the end of the sending before it",
        Test::Ends => "the end is not that of the link's rate",
        Test::Busy => "the link idled before this start while a packet waited",
        Test::Departures =>
            "its departure is not the packet with this end, or one is missing or left over",
        Test::Due => "it ends more than the longest packet's time after its due moment",
    };
    line(alloc, "@: row #: %", name, broken.as_bytes(), &[row])
}

/// One line of counts of a play that is done, from the text of its statistics.
pub fn play_line(alloc: Global, stats: &[u8]) -> Result<String, AllocError> {
    let (mut arrived, mut sent, mut dropped) = (0u64, 0u64, 0u64);
    let text = std::str::from_utf8(stats).unwrap_or_default();
    let row = text.lines().last().unwrap_or_default();
    for (at, field) in row.split(",").enumerate() {
        let count = field.parse::<u64>().unwrap_or(0);
        match at {
            1 => arrived = count,
            4 => sent = count,
            6..=8 => dropped = dropped.saturating_add(count),
            _ => {}
        }
    }
    line(
        alloc,
        "packets # sent # dropped #",
        "",
        b"",
        &[arrived, sent, dropped],
    )
}
