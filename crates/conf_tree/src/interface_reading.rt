//! `interface`.
ghost use Rattle.std.specs.Prelude.{◌≡◌, IfOk, None};
ghost use Rattle.conf_tree.specs.Answers.{Gains};
ghost use Rattle.conf_tree.specs.Interfaces.{interface_kind, unnamed_interface, read_interface};
ghost use Rattle.conf_tree.specs.Tree.{interface_number};

use crate::draft::Draft;
use crate::interface::Kind;
use crate::items::{behind, name_at};
use crate::options::{kind_by_options, rate_by_options};
use crate::places::{at_word, own_fault};
use crate::tree::Tree;
use conf_lines::{ConfFault, ConfKind, ConfPlace, Statement};
use play_base::NoMemory;
use std::alloc::Global;

/// The kind of an interface with this name.
fn interface_kind(tree: &Tree, statement: &Statement, name: &str) -> Result<Kind, ConfPlace>
    ensures kind { result ≡ interface_kind tree.now statement.now name.now }
    ensures new { IfOk result (λ _. interface_number name.now tree.now ≡ None) }
{
    if tree.interface_number(name).is_some() {
        return Err(at_word(statement, 2, ConfKind::InterfaceTwice));
    }
    if let Some(fault) = statement.fault {
        return Err(fault);
    }
    match kind_by_options(behind(statement, 1)) {
        Some(kind) => Ok(kind),
        None => Err(at_word(statement, statement.end, ConfKind::MissingWord)),
    }
}

/// The fault of an interface without a NAME, behind 16 interfaces or not.
fn unnamed(tree: &Tree, statement: &Statement) -> ConfPlace
    ensures { result ≡ unnamed_interface tree.now statement.now }
{
    if tree.interfaces().len() >= 16 && 2 < statement.end {
        at_word(statement, 2, ConfKind::TooManyInterfaces)
    } else {
        own_fault(statement)
    }
}

/// Reads an `interface`.
pub(crate) fn read_interface<'a>(
    alloc: Global,
    tree: &mut Tree<'a>,
    statement: &'a Statement,
) -> Result<(), ConfFault>
    ensures { Gains result tree.new (read_interface tree.old statement.now) }
{
    let Some(name) = name_at(statement.items.as_slice(), 0) else {
        return Err(ConfFault::At(unnamed(tree, statement)));
    };
    if tree.interfaces().len() >= 16 {
        return Err(ConfFault::At(at_word(statement, 2, ConfKind::TooManyInterfaces)));
    }
    let kind = match interface_kind(tree, statement, name) {
        Ok(kind) => kind,
        Err(fault) => return Err(ConfFault::At(fault)),
    };
    let rate = rate_by_options(100_000_000, behind(statement, 1));
    let draft = Draft::begin(alloc, statement.line, name, rate, kind);
    match tree.add(draft) {
        Ok(()) => Ok(()),
        Err(NoMemory) => Err(ConfFault::NoMemory),
    }
}
