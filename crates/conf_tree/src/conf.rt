//! The checked configuration.
ghost use Rattle.std.specs.Prelude.{◌≡◌, IfErr, IfOk, Ok, bytes_eq, find, map, option_copied};
ghost use Rattle.conf_tree.specs.Answers.{Fails, Gains};
ghost use Rattle.conf_tree.specs.Canonical.{canonical_text};
ghost use Rattle.conf_tree.specs.Reading.{reading, reading_from};
ghost use Rattle.conf_tree.specs.Whole.{whole};

use crate::interface::Interface;
use crate::reading::read_statement;
use crate::text::text_of;
use crate::tree::Tree;
use crate::whole::{first_undecided, whole_all};
use conf_lines::{ConfFault, Statement};
use play_base::NoMemory;
use std::alloc::Global;
use std::marker::Model;

/// A checked configuration. Contracts see it as the list of its interfaces, in the order of the text.
#[derive(Drop)]
pub struct Conf {
    interfaces: Vec<Interface>,
}

impl Model for Conf {
    ghost use Rattle.std.specs.Prelude.{List};
    ghost use Rattle.conf_tree.specs.declared.interface.Interface.{Interface};

    ghost Value = { List Interface };

    ghost view = { λ c. c.interfaces.items };
}

impl Conf {
    /// Joins the statements of a text to its interfaces, with their classes, filters and conditioners, after altq.conf(5).
    ///
    /// Answers `At` with the first fault of the text: that of its first statement that cannot stand behind those before it,
    /// at its first word that cannot; where no statement has a fault, it is that of the first interface that has classes and
    /// no default class, at word 0. Returns `NoMemory` where memory ran out. Takes time close to linear in the statements.
    pub fn build(alloc: Global, statements: &[Statement]) -> Result<Conf, ConfFault>
        ensures accepted { IfOk result (λ conf. reading statements.now ≡ Ok conf) }
        ensures refused { IfErr result (λ fault. Fails fault (reading statements.now)) }
    {
        let mut tree = Tree::new(alloc);
        match read_all(alloc, &mut tree, statements) {
            Ok(()) => {}
            Err(fault) => return Err(fault),
        }
        match whole_all(alloc, tree.into_interfaces()) {
            Ok(interfaces) => Ok(Conf { interfaces }),
            Err(_) => Err(ConfFault::NoMemory),
        }
    }

    /// The interface of a name; `None` exactly where the configuration has none. Does not allocate; takes time linear in the
    /// interfaces, of which there are at most 16.
    pub fn interface(&self, name: &str) -> Option<&Interface>
        ensures { option_copied result ≡ find (λ i. bytes_eq name.now i.name) self.now }
    {
        find_interface(self.interfaces.as_slice(), name)
    }

    /// The canonical text: for each interface its line, its classes, its filters and, in the order of the classes, their
    /// conditioners, each on a line of its own, with every number in decimal and each option that holds written once. Implied
    /// classes are not written.
    ///
    /// Returns `NoMemory` where memory ran out. Takes time and memory linear in the text.
    pub fn text(&self, alloc: Global) -> Result<Vec<u8>, NoMemory>
        ensures { IfOk result (λ text. text.items ≡ canonical_text self.now) }
    {
        let text = text_of(alloc, self.interfaces.as_slice())?;
        Ok(text.into_bytes())
    }
}

/// Reads the statements of a text, up to its first fault.
fn read_all<'a>(
    alloc: Global,
    tree: &mut Tree<'a>,
    statements: &'a [Statement],
) -> Result<(), ConfFault>
    ensures { Gains result (map whole tree.new) (reading_from tree.old statements.now) }
{
    for statement in statements {
        match read_statement(alloc, tree, statement) {
            Ok(()) => {}
            Err(fault) => return Err(fault),
        }
    }
    match first_undecided(tree.interfaces()) {
        Some(fault) => Err(ConfFault::At(fault)),
        None => Ok(()),
    }
}

/// The interface of a name.
fn find_interface<'a>(interfaces: &'a [Interface], name: &str) -> Option<&'a Interface>
    ensures { option_copied result ≡ find (λ i. bytes_eq name.now i.name) interfaces.now }
{
    for interface in interfaces {
        if name == interface.name.as_str() {
            return Some(interface);
        }
    }
    None
}
