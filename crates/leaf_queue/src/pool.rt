// The packets that wait, by their tickets.
ghost use Rattle.std.specs.Prelude.{◌≡◌, ◌≢◌, ◌<◌, ◌+◌, ◌^◌, ℕ, None, Some, IsSome, IfOk};
ghost use Rattle.leaf_queue.specs.Pool.{PoolView, IsReserved, packet_of, is_marked, count_of, ticket_of};

use crate::reserve::reserved;
use play_base::{NoMemory, Packet, Ticket};
use slab::Slab;
use std::alloc::Global;
use std::marker::Model;

// A packet that waits, and whether its queue marked it.
#[derive(Drop)]
pub(crate) struct Kept {
    packet: Packet,
    marked: bool,
}

/// The packets that wait, some of them marked by their queue. Contracts see a map from tickets to packets and one from tickets to
/// marks, the ticket of the packet that is put next, and the room that was reserved.
#[derive(Drop)]
pub struct Pool {
    held: Slab<Kept>,
    room: u32,
}

impl Model for Pool {
    ghost Value = { PoolView };

    ghost view = { λ p. record { slots = p.held.slots; next = ticket_of p.held.vacant_key; room = p.room } };

    ghost invariant = { λ p. IsReserved p.held p.room };
}

// A key of a slab as a ticket. Of a slab with reserved room none is greater than a ticket can be.
fn ticket_of(key: usize) -> u32
    ensures { result ≡ ticket_of key }
{
    key.min(u32::MAX as usize) as u32
}

impl Pool {
    /// Room for `n` packets. Takes all the memory that the pool will ever take: about 64 bytes for each. `NoMemory` comes only
    /// when memory runs out.
    pub fn reserve(alloc: Global, n: u32) -> Result<Pool, NoMemory>
        ensures empty { IfOk result (λ p. (t : ℕ) → packet_of p t ≡ None) }
        ensures count { IfOk result (λ p. count_of p ≡ 0) }
        ensures room { IfOk result (λ p. p.room ≡ n) }
    {
        let held = reserved(alloc, n)?;
        Ok(Pool { held, room: n })
    }

    /// The ticket that the next packet gets, where there is room for it. Does not allocate. Constant time.
    pub fn next(&self) -> Ticket
        ensures { result.0 ≡ self.now.next }
    {
        Ticket(ticket_of(self.held.vacant_key()))
    }

    /// Puts a packet, marked or not, under the next ticket, which was not held, where fewer are held than there is room. Takes no
    /// memory. Constant time.
    pub fn put(&mut self, packet: Packet, marked: bool)
        requires { count_of self.old < self.old.room }
        ensures fresh { packet_of self.old self.old.next ≡ None }
        ensures put { packet_of self.new self.old.next ≡ Some packet }
        ensures mark { is_marked self.new self.old.next ≡ marked }
        ensures others { (t : ℕ) → t ≢ self.old.next → packet_of self.new t ≡ packet_of self.old t }
        ensures marks { (t : ℕ) → t ≢ self.old.next → is_marked self.new t ≡ is_marked self.old t }
        ensures count { count_of self.new ≡ count_of self.old + 1 }
        ensures room { self.new.room ≡ self.old.room }
    {
        self.held.insert_reserved(Kept { packet, marked });
    }

    /// Whether the packet of a ticket that is held was marked. Does not allocate. Constant time.
    pub fn marked(&self, ticket: Ticket) -> bool
        requires { IsSome (packet_of self.now ticket.0) }
        ensures { result ≡ is_marked self.now ticket.0 }
    {
        self.held[ticket.0 as usize].marked
    }

    /// Takes out the packet of a ticket that is held, which is then free. Constant time.
    pub fn take(&mut self, ticket: Ticket) -> Packet
        requires { IsSome (packet_of self.old ticket.0) }
        ensures taken { packet_of self.old ticket.0 ≡ Some result }
        ensures free { packet_of self.new ticket.0 ≡ None }
        ensures others { (t : ℕ) → t ≢ ticket.0 → packet_of self.new t ≡ packet_of self.old t }
        ensures marks { (t : ℕ) → t ≢ ticket.0 → is_marked self.new t ≡ is_marked self.old t }
        ensures count { count_of self.old ≡ count_of self.new + 1 }
        ensures room { self.new.room ≡ self.old.room }
    {
        self.held.remove(ticket.0 as usize).packet
    }
}
