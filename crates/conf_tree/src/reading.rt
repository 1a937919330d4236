//! A statement.
ghost use Rattle.conf_tree.specs.Answers.{Gains};
ghost use Rattle.conf_tree.specs.Reading.{read_statement};

use crate::class_reading::read_class;
use crate::conditioner_reading::read_conditioner;
use crate::filter_reading::read_filter;
use crate::interface::Kind;
use crate::interface_reading::read_interface;
use crate::places::own_fault;
use crate::tree::Tree;
use conf_lines::{ConfFault, Form, Statement};
use std::alloc::Global;

/// Reads a statement behind those before it.
pub(crate) fn read_statement<'a>(
    alloc: Global,
    tree: &mut Tree<'a>,
    statement: &'a Statement,
) -> Result<(), ConfFault>
    ensures { Gains result tree.new (read_statement tree.old statement.now) }
{
    match statement.form {
        Form::Interface => read_interface(alloc, tree, statement),
        Form::ClassHfsc => read_class(alloc, tree, Kind::Hfsc, statement),
        Form::ClassCbq => read_class(alloc, tree, Kind::Cbq, statement),
        Form::Filter => read_filter(tree, statement),
        Form::Filter6 => read_filter(tree, statement),
        Form::Conditioner => read_conditioner(tree, statement),
        Form::Unread => Err(ConfFault::At(own_fault(statement))),
    }
}
