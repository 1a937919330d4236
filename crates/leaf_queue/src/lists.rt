// The lists of the classes.
ghost use Rattle.std.specs.Prelude.{◌≡◌, ◌<◌, ◌++◌, ◌∷◌, [], ℕ, length, map, drop, slice_get, slice_set, replicate, IfOk};
ghost use Rattle.leaf_queue.specs.Queue.{waiting_of};
ghost use Rattle.leaf_queue.specs.Lists.{Listed, list_of, total_of, precs_in};
ghost use Rattle.leaf_queue.specs.Linked.{IsLinked, row_entries};

use crate::Waiting;
use crate::linked::{appended, entry_in, idle_row, link, without_first};
use crate::node::{Entry, Node, Row, Slot};
use crate::reserve::reserved;
use play_base::NoMemory;
use slab::Slab;
use std::alloc::Global;
use std::marker::Model;

/// One list of entries for each class, the first to come in front. Contracts see the lists in the order of the classes, and the
/// room that was reserved for the entries of all. The entries of all classes stand in one vector, in which each names the place of
/// the one after it.
#[derive(Drop)]
pub struct Lists {
    nodes: Slab<Node>,
    rows: Vec<Row>,
    room: u32,
}

impl Model for Lists {
    ghost Value = { Listed };

    ghost view = { λ l. record { lists = map (row_entries l.nodes) l.rows.items; room = l.room } };

    ghost invariant = { λ l. IsLinked l.nodes l.rows.items l.room };
}

impl Lists {
    /// Empty lists of `classes` classes, with room for `n` entries in all. Takes all the memory that the lists will ever take: about
    /// 24 bytes for each entry and for each class. `NoMemory` comes only when memory runs out.
    pub fn reserve(alloc: Global, classes: u32, n: u32) -> Result<Lists, NoMemory>
        ensures empty { IfOk result (λ l. l.lists ≡ replicate classes []) }
        ensures room { IfOk result (λ l. l.room ≡ n) }
    {
        let nodes = reserved(alloc, n)?;
        let rows = vec![in alloc; idle_row(); classes as usize]?;
        Ok(Lists {
            nodes,
            rows,
            room: n,
        })
    }

    /// Puts an entry at the end of the list of a class, where fewer stand in all lists than there is room. Constant time.
    #[inline(always)]
    pub fn push(&mut self, class: u32, entry: Entry)
        requires class { class < length self.old.lists }
        requires room { total_of self.old.lists < self.old.room }
        ensures lists { self.new.lists ≡ slice_set self.old.lists class (list_of self.old.lists class ++ entry ∷ []) }
        ensures room { self.new.room ≡ self.old.room }
    {
        let row = self.rows[class as usize];
        let slot = Slot(
            self.nodes.insert_reserved(Node {
                entry,
                next: Slot(0),
            }) as u32,
        );
        link(&mut self.nodes, &row, slot);
        self.rows[class as usize] = appended(&row, slot, entry.prec);
    }

    /// Takes out the head of the list of a class: None exactly where that list is empty. Constant time.
    #[inline(always)]
    pub fn pop(&mut self, class: u32) -> Option<Entry>
        requires { class < length self.old.lists }
        ensures head { result ≡ slice_get (list_of self.old.lists class) 0 }
        ensures lists { self.new.lists ≡ slice_set self.old.lists class (drop 1 (list_of self.old.lists class)) }
        ensures room { self.new.room ≡ self.old.room }
    {
        let row = self.rows[class as usize];
        if row.waiting.all == 0 {
            return None;
        }
        let node = self.nodes.remove(row.first.index());
        self.rows[class as usize] = without_first(&row, &node);
        Some(node.entry)
    }

    /// The head of the list of a class: None exactly where that list is empty. Constant time.
    pub fn head(&self, class: u32) -> Option<Entry>
        requires { class < length self.now.lists }
        ensures { result ≡ slice_get (list_of self.now.lists class) 0 }
    {
        let row = self.rows[class as usize];
        if row.waiting.all == 0 {
            return None;
        }
        entry_in(&self.nodes, row.first)
    }

    /// How many wait in a class, by their precedences. Constant time.
    pub fn waiting(&self, class: u32) -> Waiting
        requires { class < length self.now.lists }
        ensures { result ≡ waiting_of (precs_in (list_of self.now.lists class)) }
    {
        self.rows[class as usize].waiting
    }
}
