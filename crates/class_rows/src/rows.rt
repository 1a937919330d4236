// The queues of consecutive classes.
ghost use Rattle.std.specs.Prelude.{◌≡◌, ◌≤◌, ◌<◌, ◌+◌, ◌-◌, ◌^◌, ◌∷◌, ◌↔◌, [], ℕ, List, All, IfOk, length, map, slice_get};
ghost use Rattle.altq_model.specs.declared.Reason.{Reason};
ghost use Rattle.altq_model.specs.Lawful.{IsOneOf};
ghost use Rattle.altq_model.specs.History.{LabelledEvent, Sent, Sending};
ghost use Rattle.discipline.specs.Laws.{after_offer, after_sent, held_in, room_of};
ghost use Rattle.class_rows.specs.Rows.{Answers, IsNewQueue, IsOther, IsRow, ClassQueuesView, SameRow, RowRepresents, classes_in, holding, limit_in, limits_of, limits_sum, list_in, most_of};

use crate::leaf::{offer_to, take_from};
use leaf_queue::{Entry, Lists, QueueRule, Verdict, Words};
use play_base::NoMemory;
use std::alloc::Global;
use std::marker::Model;

/// The queues of consecutive classes, numbered from a first one on. Contracts see the number of the first, the queues, which of them are those of
/// queue classes, and the lists.
#[derive(Drop)]
pub struct ClassQueues<Q: QueueRule + Drop> {
    first: u32,
    queues: Vec<Q>,
    holds: Vec<bool>,
    lists: Lists,
    room: u32,
}

impl<Q: QueueRule + Drop> Model for ClassQueues<Q> {
    ghost Value = { ClassQueuesView Q };

    ghost view = { λ r. record { first = r.first; queues = r.queues.items; holds = r.holds.items; listed = r.lists } };

    ghost invariant = { λ r. IsRow Q.most r.first r.room r.queues.items r.holds.items r.lists };
}

// The most packets of a class.
fn most_of<Q: QueueRule>(queue: &Q, holds: bool) -> u32
    ensures { result ≡ most_of Q.most queue.now holds }
{
    if holds { queue.limit() } else { 0 }
}

// The sum of the limits of the queue classes.
fn sum_of<Q: QueueRule>(queues: &[Q], holds: &[bool]) -> u32
    requires limits { All (λ q. Q.most q ≤ 10000) queues.now }
    requires count { length queues.now ≤ 256 }
    requires one_each { length holds.now ≡ length queues.now }
    ensures sum { result ≡ limits_sum (limits_of Q.most queues.now holds.now) }
    ensures bound { result ≤ 2560000 }
{
    let mut sum = 0;
    for place in 0..queues.len() {
        sum += most_of(&queues[place], holds[place]);
    }
    sum
}

impl<Q: QueueRule + Drop> ClassQueues<Q> {
    /// The classes `first`, `first` + 1 and so on, one for each of at most 256 queues, which stand for nothing asked or told yet and
    /// hold 1 to 10,000 packets; `holds` says of each whether it is a queue class. Takes all the memory that it will ever take;
    /// `NoMemory` comes only when memory runs out.
    pub fn build(
        alloc: Global,
        first: u32,
        queues: Vec<Q>,
        holds: Vec<bool>,
    ) -> Result<ClassQueues<Q>, NoMemory>
        requires most { length queues.items ≤ 256 }
        requires one_each { length holds.items ≡ length queues.items }
        requires queues { All (IsNewQueue Q.stands Q.most) queues.items }
        ensures recorded { IfOk result (λ r. RowRepresents Q.stands r []) }
        ensures first { IfOk result (λ r. r.first ≡ first) }
        ensures queues { IfOk result (λ r. r.queues ≡ queues.items) }
        ensures holds { IfOk result (λ r. r.holds ≡ holds.items) }
    {
        let room = sum_of(&queues, &holds);
        let lists = Lists::reserve(alloc, queues.len() as u32, room)?;
        Ok(ClassQueues {
            first,
            queues,
            holds,
            lists,
            room,
        })
    }

    /// The sum of the limits of the queue classes, 2,560,000 at most. No more packets wait.
    pub fn room(&self) -> u32
        ensures sum { result ≡ room_of (limit_in Q.most self.now) (classes_in self.now) }
        ensures bound { result ≤ 2560000 }
        ensures within { held_in (list_in self.now) (classes_in self.now) ≤ result }
    {
        self.room
    }

    /// The number of the first class. Every other class than these has an empty list. Does not allocate.
    pub fn first(&self) -> u32
        ensures first { result ≡ self.now.first }
        ensures others { (c : ℕ) → IsOther self.now c → list_in self.now c ≡ [] }
    {
        self.first
    }

    /// How many classes there are. Does not allocate.
    pub fn count(&self) -> u32
        ensures { result ≡ length self.now.queues }
    {
        self.queues.len() as u32
    }

    /// The head of a class's list: `None` exactly where that is empty. Does not allocate.
    pub fn head(&self, class: u32) -> Option<Entry>
        requires low { self.now.first ≤ class }
        requires high { class < self.now.first + length self.now.queues }
        ensures { result ≡ slice_get (list_in self.now class) 0 }
    {
        self.lists.head(class - self.first)
    }

    /// Offers a packet to the queue of a queue class, and puts it at the end of its list if it is kept. It is dropped as `Full`
    /// exactly where the queue is at its limit. Does not allocate.
    #[inline(always)]
    pub fn offer(&mut self, class: u32, entry: Entry, now: u64, words: &mut Words) -> Verdict
        requires class { IsOneOf class (classes_in self.old) }
        requires prec { entry.prec ≤ 2 }
        ensures lists { (c : ℕ) → list_in self.new c ≡ after_offer result class entry (list_in self.old) c }
        ensures full { (result ≡ Verdict.Drop Reason.Full) ↔ (length (list_in self.old class) ≡ limit_in Q.most self.old class) }
        ensures recorded { (h : List LabelledEvent) → RowRepresents Q.stands self.old h → words.old.drawn < 2 ^ 64 - 1
            → Answers Q.stands Q.says self.old self.new h class entry now words.old result words.new }
        ensures within { held_in (list_in self.new) (classes_in self.new) ≤ room_of (limit_in Q.most self.new) (classes_in self.new) }
        ensures same { SameRow Q.most Q.says self.old self.new }
    {
        let place = class - self.first;
        let queue = &mut self.queues[place as usize];
        offer_to(queue, &mut self.lists, place, entry, now, words)
    }

    /// Takes the head of a class's list, which is not empty, and tells its queue. Does not allocate.
    #[inline(always)]
    pub fn take(&mut self, class: u32, now: u64)
        requires some { 0 < length (list_in self.old class) }
        ensures lists { (c : ℕ) → list_in self.new c ≡ after_sent class (list_in self.old) c }
        ensures recorded { (h : List LabelledEvent) → RowRepresents Q.stands self.old h → (n : ℕ) (s : Sending) → s.class ≡ class → s.start ≡ now
            → RowRepresents Q.stands self.new (record { label = n; what = Sent s } ∷ h) }
        ensures within { held_in (list_in self.new) (classes_in self.new) ≤ room_of (limit_in Q.most self.new) (classes_in self.new) }
        ensures same { SameRow Q.most Q.says self.old self.new }
    {
        let place = class - self.first;
        let queue = &mut self.queues[place as usize];
        take_from(queue, &mut self.lists, place, now);
    }
}
