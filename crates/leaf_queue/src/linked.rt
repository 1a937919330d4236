// One step of a list that is linked through numbered places.
ghost use Rattle.std.specs.Prelude.{◌≡◌, ◌≤◌, ◌<◌, ◌+◌, ◌^◌, if◌then◌else◌, nat_le, ◌==◌, option_map};
ghost use Rattle.slab.specs.Slab.{get, ContainsKey};
ghost use Rattle.leaf_queue.specs.Linked.{linked_to, empty_row, row_after, row_before, IsCounted};

use crate::Waiting;
use crate::node::{Entry, Node, Row, Slot};
use slab::Slab;

// The list of no entry.
pub fn idle_row() -> Row
    ensures { result ≡ empty_row }
{
    Row {
        first: Slot(0),
        last: Slot(0),
        waiting: Waiting {
            best: 0,
            middle: 0,
            all: 0,
        },
    }
}

// The entry at a place, if one stands there.
pub fn entry_in(nodes: &Slab<Node>, slot: Slot) -> Option<Entry>
    ensures { result ≡ option_map (λ x. x.entry) (get nodes.now slot.0) }
{
    nodes.get(slot.index()).map(|node| node.entry)
}

// Links the last node of a list, if there is one, to the node at `slot`.
pub fn link(nodes: &mut Slab<Node>, row: &Row, slot: Slot)
    requires { 0 < row.now.waiting.all → ContainsKey nodes.old row.now.last.0 }
    ensures { nodes.new ≡ linked_to nodes.old row.now slot }
{
    if row.waiting.all == 0 {
        return;
    }
    if let Some(node) = nodes.get_mut(row.last.index()) {
        node.next = slot;
    }
}

// The list after an entry of this precedence was put at its end, in this place.
pub fn appended(row: &Row, slot: Slot, prec: u8) -> Row
    requires counted { IsCounted row.now.waiting }
    requires room { row.now.waiting.all + 1 < 2 ^ 32 }
    ensures { result ≡ row_after row.now slot prec }
{
    Row {
        first: if row.waiting.all == 0 {
            slot
        } else {
            row.first
        },
        last: slot,
        waiting: Waiting {
            best: row.waiting.best + u32::from(prec == 0),
            middle: row.waiting.middle + u32::from(prec <= 1),
            all: row.waiting.all + 1,
        },
    }
}

// The list after its head was taken, which stood there.
pub fn without_first(row: &Row, head: &Node) -> Row
    requires some { 0 < row.now.waiting.all }
    requires best { head.now.entry.prec ≡ 0 → 0 < row.now.waiting.best }
    requires middle { head.now.entry.prec ≤ 1 → 0 < row.now.waiting.middle }
    ensures { result ≡ row_before row.now head.now }
{
    Row {
        first: head.next,
        last: row.last,
        waiting: Waiting {
            best: row.waiting.best - u32::from(head.entry.prec == 0),
            middle: row.waiting.middle - u32::from(head.entry.prec <= 1),
            all: row.waiting.all - 1,
        },
    }
}
