//! The interfaces as far as the statements are read.
ghost use Rattle.std.specs.Prelude.{◌≡◌, ◌++◌, ◌∷◌, [], None, Some, OnOk, slice_get, slice_set};
ghost use Rattle.conf_tree.specs.Fits.{Fits};
ghost use Rattle.conf_tree.specs.Tree.{Begun, interface_number, add_class, add_filter, add_conditioner};

use crate::branch::Branch;
use crate::conditioner::Conditioner;
use crate::draft::Draft;
use crate::filter::Filter;
use crate::names::Names;
use conf_lines::Statement;
use play_base::NoMemory;
use std::alloc::Global;
use std::marker::Model;

/// The interfaces as far as the statements are read, in the order of the text.
#[derive(Drop)]
pub(crate) struct Tree<'a> {
    names: Names<'a>,
    interfaces: Vec<Draft<'a>>,
}

impl<'a> Model for Tree<'a> {
    ghost use Rattle.std.specs.Prelude.{◌≡◌, List, map};
    ghost use Rattle.conf_tree.specs.Tree.{Begun, interface_name};

    ghost Value = { List Begun };

    ghost view = { λ t. t.interfaces.items };

    ghost invariant = { λ t. t.names ≡ map interface_name t.interfaces.items };
}

impl<'a> Tree<'a> {
    /// No interfaces.
    pub(crate) fn new(alloc: Global) -> Tree<'a>
        ensures { result ≡ [] }
    {
        Tree {
            names: Names::new(alloc),
            interfaces: Vec::new(alloc),
        }
    }

    /// The interfaces.
    pub(crate) fn interfaces(&self) -> &[Draft<'a>]
        ensures { result.now ≡ self.now }
    {
        self.interfaces.as_slice()
    }

    /// The interfaces, on their own. Does not allocate.
    pub(crate) fn into_interfaces(self) -> Vec<Draft<'a>>
        ensures { result.items ≡ self.entry }
    {
        let Tree { interfaces, .. } = self;
        interfaces
    }

    /// The number of the interface of a name.
    pub(crate) fn interface_number(&self, name: &str) -> Option<usize>
        ensures { result ≡ interface_number name.now self.now }
    {
        self.names.number(name)
    }

    /// Adds an interface whose name no other has.
    pub(crate) fn add(&mut self, draft: Draft<'a>) -> Result<(), NoMemory>
        requires { interface_number draft.name self.old ≡ None }
        ensures { OnOk result (self.new ≡ self.old ++ draft.entry ∷ []) }
    {
        let name = draft.name;
        match self.names.add_with(name, &mut self.interfaces, draft) {
            Ok(()) => Ok(()),
            Err(NoMemory) => Err(NoMemory),
        }
    }

    /// Adds the class of a statement to an interface.
    pub(crate) fn add_class(
        &mut self,
        number: usize,
        statement: &'a Statement,
        branch: Branch,
    ) -> Result<(), NoMemory>
        requires { (b : Begun) → slice_get self.old number ≡ Some b → Fits b statement.now branch }
        ensures { (b : Begun) → slice_get self.old number ≡ Some b → OnOk result (self.new ≡ slice_set self.old number (add_class b branch)) }
    {
        if number < self.interfaces.len() {
            let draft = &mut self.interfaces[number];
            return draft.add_class(statement, branch);
        }
        Ok(())
    }

    /// Adds a filter to an interface.
    pub(crate) fn add_filter(&mut self, number: usize, filter: Filter) -> Result<(), NoMemory>
        ensures { (b : Begun) → slice_get self.old number ≡ Some b → OnOk result (self.new ≡ slice_set self.old number (add_filter b filter)) }
    {
        if number < self.interfaces.len() {
            let draft = &mut self.interfaces[number];
            return draft.add_filter(filter);
        }
        Ok(())
    }

    /// Adds a conditioner to an interface. Does not allocate.
    pub(crate) fn add_conditioner(&mut self, number: usize, conditioner: Conditioner)
        ensures { (b : Begun) → slice_get self.old number ≡ Some b → self.new ≡ slice_set self.old number (add_conditioner b conditioner) }
    {
        if number < self.interfaces.len() {
            let draft = &mut self.interfaces[number];
            draft.add_conditioner(conditioner);
        }
    }
}
