//! `filter` and `filter6`.
ghost use Rattle.std.specs.Prelude.{◌≡◌};
ghost use Rattle.conf_tree.specs.Answers.{Gains};
ghost use Rattle.conf_tree.specs.FilterStatements.{filter_to, filter_read, read_filter};

use crate::branch::Branch;
use crate::class_reading::is_hfsc;
use crate::draft::Draft;
use crate::filter::Filter;
use crate::filter_parts::filter_of;
use crate::interface::Kind;
use crate::items::{behind, name_at};
use crate::places::{at_word, own_fault};
use crate::tree::Tree;
use conf_lines::{ConfFault, ConfKind, ConfPlace, Statement};
use play_base::NoMemory;

/// The filter of a class that it names.
fn filter_to(
    kind: Kind,
    statement: &Statement,
    number: u32,
    branch: &Branch,
) -> Result<Filter, ConfPlace>
    ensures { result ≡ filter_to kind statement.now number branch.now }
{
    if is_hfsc(kind) && branch.inner {
        return Err(at_word(statement, 3, ConfKind::InnerQueue));
    }
    match statement.fault {
        Some(fault) => Err(fault),
        None => Ok(filter_of(statement.form, number, behind(statement, 2))),
    }
}

/// The filter of a statement.
fn filter_read(draft: &Draft, statement: &Statement) -> Result<Filter, ConfPlace>
    ensures { result ≡ filter_read draft.now statement.now }
{
    if draft.filters.len() >= 1024 {
        return Err(at_word(statement, 2, ConfKind::TooManyFilters));
    }
    let Some(name) = name_at(statement.items.as_slice(), 1) else {
        return Err(own_fault(statement));
    };
    let Some(number) = draft.class_number(name) else {
        return Err(at_word(statement, 3, ConfKind::NoClass));
    };
    match draft.classes.get(number as usize) {
        Some(branch) => filter_to(draft.kind, statement, number, branch),
        None => Err(at_word(statement, 3, ConfKind::NoClass)),
    }
}

/// Reads a `filter` or a `filter6`.
pub(crate) fn read_filter(tree: &mut Tree, statement: &Statement) -> Result<(), ConfFault>
    ensures { Gains result tree.new (read_filter tree.old statement.now) }
{
    let Some(interface) = name_at(statement.items.as_slice(), 0) else {
        return Err(ConfFault::At(own_fault(statement)));
    };
    let Some(number) = tree.interface_number(interface) else {
        return Err(ConfFault::At(at_word(statement, 2, ConfKind::NoInterface)));
    };
    let Some(draft) = tree.interfaces().get(number) else {
        return Err(ConfFault::At(at_word(statement, 2, ConfKind::NoInterface)));
    };
    let filter = match filter_read(draft, statement) {
        Ok(filter) => filter,
        Err(fault) => return Err(ConfFault::At(fault)),
    };
    match tree.add_filter(number, filter) {
        Ok(()) => Ok(()),
        Err(NoMemory) => Err(ConfFault::NoMemory),
    }
}
