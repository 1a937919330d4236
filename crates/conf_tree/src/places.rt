//! The places of faults: at a word of a line or of a statement.
ghost use Rattle.std.specs.Prelude.{◌≡◌};
ghost use Rattle.conf_tree.specs.Places.{at_word, fault_at, own_fault};

use conf_lines::{ConfKind, ConfPlace, Statement};

/// The fault of a kind at a word of a line.
pub(crate) fn fault_at(line: u64, word: u64, kind: ConfKind) -> ConfPlace
    ensures { result ≡ fault_at line word kind }
{
    ConfPlace { line, word, kind }
}

/// The fault of a kind at a word of a statement.
pub(crate) fn at_word(statement: &Statement, word: u64, kind: ConfKind) -> ConfPlace
    ensures { result ≡ at_word statement.now word kind }
{
    fault_at(statement.line, word, kind)
}

/// The fault of a statement that lacks a word that it needs: its own first fault, or a word is missing at its end.
pub(crate) fn own_fault(statement: &Statement) -> ConfPlace
    ensures { result ≡ own_fault statement.now }
{
    match statement.fault {
        Some(fault) => fault,
        None => at_word(statement, statement.end, ConfKind::MissingWord),
    }
}
