//! `conditioner`.
ghost use Rattle.std.specs.Prelude.{◌≡◌};
ghost use Rattle.conf_tree.specs.Answers.{Gains};
ghost use Rattle.conf_tree.specs.Conditioners.{conditioner_to, conditioner_read, read_conditioner};

use crate::branch::Branch;
use crate::class_reading::is_hfsc;
use crate::conditioner::Conditioner;
use crate::conditioner_parts::meter_of;
use crate::draft::Draft;
use crate::interface::Kind;
use crate::items::{behind, name_at};
use crate::places::{at_word, own_fault};
use crate::tree::Tree;
use conf_lines::{ConfFault, ConfKind, ConfPlace, Statement};

/// The conditioner of a class that it names.
fn conditioner_to(
    kind: Kind,
    statement: &Statement,
    number: u32,
    branch: &Branch,
) -> Result<Conditioner, ConfPlace>
    ensures { result ≡ conditioner_to kind statement.now number branch.now }
{
    if is_hfsc(kind) && branch.inner {
        return Err(at_word(statement, 3, ConfKind::InnerQueue));
    }
    if branch.class.meter.is_some() {
        return Err(at_word(statement, 3, ConfKind::ConditionerTwice));
    }
    match statement.fault {
        Some(fault) => Err(fault),
        None => Ok(Conditioner {
            class: number,
            rule: meter_of(behind(statement, 2)),
        }),
    }
}

/// The conditioner of a statement.
fn conditioner_read(draft: &Draft, statement: &Statement) -> Result<Conditioner, ConfPlace>
    ensures { result ≡ conditioner_read draft.now statement.now }
{
    let Some(name) = name_at(statement.items.as_slice(), 1) else {
        return Err(own_fault(statement));
    };
    let Some(number) = draft.class_number(name) else {
        return Err(at_word(statement, 3, ConfKind::NoClass));
    };
    match draft.classes.get(number as usize) {
        Some(branch) => conditioner_to(draft.kind, statement, number, branch),
        None => Err(at_word(statement, 3, ConfKind::NoClass)),
    }
}

/// Reads a `conditioner`.
pub(crate) fn read_conditioner(tree: &mut Tree, statement: &Statement) -> Result<(), ConfFault>
    ensures { Gains result tree.new (read_conditioner tree.old statement.now) }
{
    let Some(interface) = name_at(statement.items.as_slice(), 0) else {
        return Err(ConfFault::At(own_fault(statement)));
    };
    let Some(number) = tree.interface_number(interface) else {
        return Err(ConfFault::At(at_word(statement, 2, ConfKind::NoInterface)));
    };
    let Some(draft) = tree.interfaces().get(number) else {
        return Err(ConfFault::At(at_word(statement, 2, ConfKind::NoInterface)));
    };
    match conditioner_read(draft, statement) {
        Ok(conditioner) => {
            tree.add_conditioner(number, conditioner);
            Ok(())
        }
        Err(fault) => Err(ConfFault::At(fault)),
    }
}
