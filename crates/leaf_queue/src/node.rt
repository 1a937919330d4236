// The places in which the entries of all classes stand.
ghost use Rattle.std.specs.Prelude.{◌≡◌};

use crate::Waiting;
use play_base::Ticket;

/// A packet that waits in a class: its ticket in the pool, its length in bytes, 1 to 262,144, and its precedence, 0, 1 or 2.
#[derive(Clone, Copy)]
pub struct Entry {
    pub ticket: Ticket,
    pub len: u32,
    pub prec: u8,
}

/// The number of a place.
#[derive(Clone, Copy)]
pub struct Slot(pub u32);

impl Slot {
    /// The number as an index.
    pub fn index(self) -> usize
        ensures { result ≡ self.0 }
    {
        self.0 as usize
    }
}

/// An entry, and the slot of the next node of its list; that of the last node means nothing.
#[derive(Clone, Copy)]
pub struct Node {
    pub entry: Entry,
    pub next: Slot,
}

/// The list of a class: its first and its last place, which mean nothing where it is empty, and how many wait.
#[derive(Clone, Copy)]
pub struct Row {
    pub first: Slot,
    pub last: Slot,
    pub waiting: Waiting,
}
