//! Names in order, with look-ups by name.

use indexmap::IndexSet;
use play_base::NoMemory;
use std::alloc::Global;
use std::marker::Model;

/// Names that differ, in the order of their coming. Contracts see them as the list of their bytes.
#[derive(Drop)]
pub(crate) struct Names<'a> {
    names: IndexSet<&'a str>,
}

impl<'a> Model for Names<'a> {
    ghost use Rattle.std.specs.Prelude.{List, ℕ, map};

    ghost Value = { List (List ℕ) };

    ghost view = { λ n. map (λ k. k.now) n.names.keys };
}

impl<'a> Names<'a> {
    ghost use Rattle.std.specs.Prelude.{◌≡◌, ◌<◌, None, IfSome, length, [], ◌∷◌, ◌++◌, OnOk, OnErr, bytes_eq, position};

    /// No names.
    pub(crate) fn new(alloc: Global) -> Names<'a>
        ensures { result ≡ [] }
    {
        Names {
            names: IndexSet::new(alloc),
        }
    }

    /// The number of a name, from 0.
    pub(crate) fn number(&self, name: &str) -> Option<usize>
        ensures number { result ≡ position (bytes_eq name.now) self.now }
        ensures within { IfSome result (λ n. n < length self.now) }
    {
        self.names.get_index_of(name)
    }

    /// Adds a name that is not there.
    pub(crate) fn add(&mut self, name: &'a str) -> Result<(), NoMemory>
        requires { position (bytes_eq name.now) self.old ≡ None }
        ensures added { OnOk result (self.new ≡ self.old ++ name.now ∷ []) }
        ensures same { OnErr result (self.new ≡ self.old) }
    {
        match self.names.insert(name) {
            Ok(_) => Ok(()),
            Err(_) => Err(NoMemory),
        }
    }

    /// Adds a name that is not there, and what has it to a list. After `NoMemory` nothing has changed.
    pub(crate) fn add_with<T: Drop>(
        &mut self,
        name: &'a str,
        items: &mut Vec<T>,
        item: T,
    ) -> Result<(), NoMemory>
        requires { position (bytes_eq name.now) self.old ≡ None }
        ensures added { OnOk result (self.new ≡ self.old ++ name.now ∷ []) }
        ensures pushed { OnOk result (items.new.items ≡ items.old.items ++ item ∷ []) }
        ensures same_names { OnErr result (self.new ≡ self.old) }
        ensures same_items { OnErr result (items.new.items ≡ items.old.items) }
    {
        match items.reserve(1) {
            Ok(()) => {}
            Err(_) => return Err(NoMemory),
        }
        match self.add(name) {
            Ok(()) => {}
            Err(NoMemory) => return Err(NoMemory),
        }
        match items.push(item) {
            Ok(()) => Ok(()),
            Err(_) => Err(NoMemory),
        }
    }
}
