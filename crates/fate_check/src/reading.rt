// The rows of given fates.
ghost use Rattle.std.specs.Prelude.{◌≡◌, IfErr, OnErr, OnOk};
ghost use Rattle.play_text.specs.Names.{AreNames};
ghost use Rattle.fate_check.specs.Fault.{IfAt};
ghost use Rattle.fate_check.specs.Given.{Adds};
ghost use Rattle.fate_check.specs.Text.{AreRows, FailsAt, Reads};

use crate::parse::row_at;
use altq_model::Fate;
use play_text::{Names, fates_header};
use std::alloc::AllocFailed;

/// A row of fates: the packet's number, its arrival in nanoseconds, its length in bytes, its class, and what became of it. Nothing
/// is known of a row but that it stands in a text: each number may be any of its type.
#[derive(Clone, Copy)]
pub struct Row {
    pub number: u64,
    pub at: u64,
    pub len: u32,
    pub class: u32,
    pub fate: Fate,
}

/// Why a text is no rows.
#[derive(Clone, Copy, Debug, PartialEq, Eq)]
pub enum RowFault {
    /// The first row that is none; the head row is row 0.
    At(u64),
    NoMemory,
}

impl From<AllocFailed<Row>> for RowFault {
    ghost use Rattle.fate_check.specs.declared.reading.RowFault.TheVariants.{NoMemory};

    ghost from_gives = { λ e r. r ≡ NoMemory };

    fn from(_: AllocFailed<Row>) -> RowFault {
        RowFault::NoMemory
    }
}

// What the type of names keeps.
fn check_names(names: &Names)
    ensures { AreNames names.now }
{
    names.len();
}

// Puts the rows of a text of fates at the end of a list: those before the first that is none.
fn push_rows(text: &[u8], names: &Names, rows: &mut Vec<Row>) -> Result<(), RowFault>
    ensures read { OnOk result (Adds (Reads names.now text.now) rows.old.items rows.new.items) }
    ensures fault { IfErr result (IfAt (FailsAt names.now text.now)) }
    ensures kept { Adds (AreRows names.now) rows.old.items rows.new.items }
{
    let Some(mut rest) = text.strip_prefix(fates_header()) else {
        return Err(RowFault::At(0));
    };
    check_names(names);
    let mut row_number = 1u64;
    while !rest.is_empty() {
        let Some((row, more)) = row_at(rest, names) else {
            return Err(RowFault::At(row_number));
        };
        rows.push(row)?;
        row_number += 1;
        rest = more;
    }
    Ok(())
}

/// Puts the rows of a text of fates at the end of a list: the head row, and then rows as a play writes them, each with its line feed,
/// whose classes are named. `At` comes exactly where the text is none, with the first row that is none. After an error the list is
/// as it was. Costs the length of the text, and in each row a search for the name of its class.
pub fn add_rows(text: &[u8], names: &Names, rows: &mut Vec<Row>) -> Result<(), RowFault>
    ensures read { OnOk result (Adds (Reads names.now text.now) rows.old.items rows.new.items) }
    ensures fault { IfErr result (IfAt (FailsAt names.now text.now)) }
    ensures stays { OnErr result (rows.new.items ≡ rows.old.items) }
{
    let before = rows.len();
    match push_rows(text, names, rows) {
        Ok(()) => Ok(()),
        Err(fault) => {
            rows.truncate(before);
            Err(fault)
        }
    }
}
