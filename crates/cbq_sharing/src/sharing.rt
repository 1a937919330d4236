// What CBQ keeps of its classes beside their queues.
ghost use Rattle.std.specs.Prelude.{◌≡◌, ◌==◌, ◌≤◌, ◌<◌, ◌+◌, ◌^◌, ℕ, List, IfSome, length, get_or, nat_lt};
ghost use Rattle.std.specs.List.{list_any};
ghost use Rattle.altq_model.specs.Link.{end_of};
ghost use Rattle.link_clock.specs.Clock.{Clock};
ghost use Rattle.cbq_model.specs.Choice.{rounds_for};
ghost use Rattle.cbq_model.specs.Tree.{class_of, lender_of, lenders_up, quantum_of};
ghost use Rattle.cbq_sharing.specs.Held.{IsHeldBack};
ghost use Rattle.cbq_sharing.specs.Lent.{IsLent};
ghost use Rattle.cbq_sharing.specs.Shared.{IsShared, IsTree, Shared, allows_end, borrows_from_root, is_free, least_with, may_end, own_now, start_now_in};

use crate::fixed::Fixed;
use crate::lent::Lent;
use cbq_estimator::Estimator;
use cbq_model::{CbqClass, Rank};
use link_clock::LinkClock;
use std::marker::Model;

/// The most levels of a tree of classes.
pub(crate) const LEVELS: u32 = 8;

/// The rate of the link, the classes with their averages and credits and with what never changes of them, and the cursors of their rings.
#[derive(Drop)]
pub struct Shares {
    pub(crate) rate: u64,
    pub(crate) classes: Vec<CbqClass>,
    pub(crate) estimators: Vec<Estimator>,
    pub(crate) fixed: Vec<Fixed>,
    pub(crate) credits: Vec<u64>,
    pub(crate) cursors: Vec<u32>,
    pub(crate) ended: u64,
}

impl Model for Shares {
    ghost Value = { Shared };

    ghost view = { λ s. record {
      rate = s.rate;
      tree = s.classes.items;
      estimates = s.estimators.items;
      credits = s.credits.items;
      cursors = s.cursors.items;
      ended = s.ended;
    } };

    ghost invariant = { λ s. IsShared s.rate s.classes.items s.estimators.items s.fixed.items s.credits.items s.cursors.items s.ended };
}

impl Shares {
    // The least moment from `now` on at which a class's own average allows a packet.
    fn own_start(&self, class: u32, len: u32, now: u64, clock: &LinkClock) -> u64
        requires class { class < length self.now.tree }
        requires free { clock.now.link.free ≤ now }
        requires early { now < 2 ^ 63 }
        requires some_bytes { 1 ≤ len }
        requires few_bytes { len ≤ 262144 }
        ensures { result ≡ own_now self.now.tree self.now.estimates clock.now.rate clock.now.link now len class }
    {
        if self.classes[class as usize].parent.is_none() {
            return now;
        }
        self.estimators[class as usize].start(now, len, clock)
    }

    // Whom a class may ask for a loan.
    fn lender(&self, class: u32) -> Option<u32>
        requires class { class < length self.now.tree }
        ensures lender { result ≡ lender_of (class_of self.now.tree class) }
        ensures earlier { (p : ℕ) → result ≡ Some p → p < length self.now.tree }
    {
        let k = &self.classes[class as usize];
        if k.borrow { k.parent } else { None }
    }

    // Whether a class allows a packet of `len` bytes that would end at `end`; the root allows each.
    fn allows_end(&self, class: u32, len: u32, end: u64) -> bool
        requires class { class < length self.now.tree }
        ensures { result ≡ allows_end self.now.tree self.now.estimates end len class }
    {
        self.classes[class as usize].parent.is_none()
            || self.estimators[class as usize].allows(end, len)
    }

    // Whether a class that may lend, or one of the lenders above it, over at most `levels` levels, allows such a packet.
    fn lends(&self, levels: u32, lender: Option<u32>, len: u32, end: u64) -> bool
        requires lender { (p : ℕ) → lender ≡ Some p → p < length self.now.tree }
        ensures { result ≡ list_any (allows_end self.now.tree self.now.estimates end len) (lenders_up levels self.now.tree lender) }
    {
        let Some(class) = lender else {
            return false;
        };
        if levels == 0 {
            return false;
        }
        if self.allows_end(class, len, end) {
            return true;
        }
        let next = self.lender(class);
        self.lends(levels - 1, next, len, end)
    }

    // Asks the lenders of a class, where others were asked last.
    fn ask(&self, class: u32, last: &mut Lent)
        requires class { class < length self.now.tree }
        ensures lent { (clock : Clock) (t : ℕ) → IsLent self.now.tree self.now.estimates clock t last.old
            → IsLent self.now.tree self.now.estimates clock t last.new }
        ensures lender { last.new.lender ≡ lender_of (class_of self.now.tree class) }
        ensures len { last.new.len ≡ last.old.len }
    {
        let lender = self.lender(class);
        if last.lender != lender {
            last.lends = self.lends(LEVELS, lender, last.len, last.end);
            last.lender = lender;
        }
    }

    // Whether a class holds back no packet, whatever its length and whenever it starts.
    fn is_free(&self, class: u32) -> bool
        requires class { class < length self.now.tree }
        ensures { result ≡ is_free self.now.tree self.now.estimates class }
    {
        self.classes[class as usize].parent.is_none()
            || self.estimators[class as usize].average() > 0
    }

    /// Whether the root is one of those that may lend to a class, which may then always send.
    pub fn is_rooted(&self, class: u32) -> bool
        requires class { class < length self.now.tree }
        ensures { result ≡ borrows_from_root self.now.tree (class_of self.now.tree class) }
    {
        self.fixed[class as usize].rooted
    }

    /// Whether a class may send a packet of `len` bytes at `now`, of itself or by a loan. It asks the class first, and the lenders above it
    /// only where they are not those that were asked last of this length. One division where the class holds packets back and the length
    /// is another; none else.
    #[inline(never)]
    pub fn asks(&self, class: u32, len: u32, now: u64, clock: &LinkClock, last: &mut Lent) -> bool
        requires class { class < length self.now.tree }
        requires free { clock.now.link.free ≤ now }
        requires early { now < 2 ^ 63 }
        requires some_bytes { 1 ≤ len }
        requires lent { IsLent self.now.tree self.now.estimates clock.now now last.old }
        ensures may { result ≡ may_end self.now.tree self.now.estimates (end_of clock.now.rate clock.now.link now len) len class }
        ensures lent { IsLent self.now.tree self.now.estimates clock.now now last.new }
    {
        if self.is_free(class) {
            return true;
        }
        last.keep_of(len, now, clock);
        if self.allows_end(class, len, last.end) {
            return true;
        }
        self.ask(class, last);
        last.lends
    }

    /// The same, but nobody is asked where the root may lend to the class.
    #[inline]
    pub fn may_send(
        &self,
        class: u32,
        len: u32,
        now: u64,
        clock: &LinkClock,
        last: &mut Lent,
    ) -> bool
        requires class { class < length self.now.tree }
        requires free { clock.now.link.free ≤ now }
        requires early { now < 2 ^ 63 }
        requires some_bytes { 1 ≤ len }
        requires lent { IsLent self.now.tree self.now.estimates clock.now now last.old }
        ensures may { result ≡ may_end self.now.tree self.now.estimates (end_of clock.now.rate clock.now.link now len) len class }
        ensures lent { IsLent self.now.tree self.now.estimates clock.now now last.new }
    {
        self.is_rooted(class) || self.asks(class, len, now, clock, last)
    }

    /// The moment till which a class that has no lender is held back with a packet of `len` bytes, where that is later than the next
    /// nanosecond.
    pub fn held_till(&self, class: u32, len: u32, now: u64, clock: &LinkClock) -> Option<u64>
        requires class { class < length self.now.tree }
        requires free { clock.now.link.free ≤ now }
        requires early { now < 2 ^ 63 }
        requires some_bytes { 1 ≤ len }
        requires few_bytes { len ≤ 262144 }
        requires rate { clock.now.rate ≡ self.now.rate }
        ensures { IfSome result (λ moment. IsHeldBack self.now class len moment) }
    {
        if self.lender(class).is_some() {
            return None;
        }
        let start = self.own_start(class, len, now, clock);
        if start > now + 1 { Some(start) } else { None }
    }

    // The least of `start` and of the moments from which `lender`, and each lender above it over at most `levels` levels, allows the
    // packet.
    fn least_start(
        &self,
        levels: u32,
        lender: Option<u32>,
        start: u64,
        len: u32,
        now: u64,
        clock: &LinkClock,
    ) -> u64
        requires lender { (p : ℕ) → lender ≡ Some p → p < length self.now.tree }
        requires free { clock.now.link.free ≤ now }
        requires early { now < 2 ^ 63 }
        requires some_bytes { 1 ≤ len }
        requires few_bytes { len ≤ 262144 }
        ensures { result ≡ least_with (own_now self.now.tree self.now.estimates clock.now.rate clock.now.link now len) start
            (lenders_up levels self.now.tree lender) }
    {
        let Some(class) = lender else {
            return start;
        };
        if levels == 0 {
            return start;
        }
        let own = self.own_start(class, len, now, clock);
        let next = self.lender(class);
        self.least_start(levels - 1, next, start.min(own), len, now, clock)
    }

    /// The least moment from `now` on, no earlier than the last end and before 2^63, at which a class may send a packet of `len` bytes, of
    /// itself or by a loan. It computes the moments of the class and of those above it that may lend.
    pub fn start_of(&self, class: u32, len: u32, now: u64, clock: &LinkClock) -> u64
        requires class { class < length self.now.tree }
        requires free { clock.now.link.free ≤ now }
        requires early { now < 2 ^ 63 }
        requires some_bytes { 1 ≤ len }
        requires few_bytes { len ≤ 262144 }
        ensures { result ≡ start_now_in self.now clock.now.rate clock.now.link class now len }
    {
        let lender = self.lender(class);
        let own = self.own_start(class, len, now, clock);
        self.least_start(LEVELS, lender, own, len, now, clock)
    }

    /// Whether a class itself allows a packet of `len` bytes to start at `now`, no earlier than the last end and before 2^63. One division
    /// where the class holds packets back; none else.
    pub fn allows(&self, class: u32, len: u32, now: u64, clock: &LinkClock) -> bool
        requires class { class < length self.now.tree }
        requires free { clock.now.link.free ≤ now }
        requires early { now < 2 ^ 63 }
        requires some_bytes { 1 ≤ len }
        requires few_bytes { len ≤ 262144 }
        ensures { result ≡ (own_now self.now.tree self.now.estimates clock.now.rate clock.now.link now len class == now) }
    {
        self.is_free(class) || self.allows_end(class, len, clock.end_of(now, len))
    }

    /// The end of the latest sending, 0 before the first. The classes are a tree.
    pub fn last_end(&self) -> u64
        ensures end { result ≡ self.now.ended }
        ensures tree { IsTree self.now.tree }
    {
        self.ended
    }

    /// What a class gains in a round, in bytes.
    pub fn quantum(&self, class: u32) -> u64
        requires class { class < length self.now.tree }
        ensures value { result ≡ quantum_of self.now.rate (class_of self.now.tree class) }
        ensures least { 1 ≤ result }
        ensures most { result ≤ 2 ^ 41 }
    {
        self.fixed[class as usize].quantum
    }

    /// The priority of a class.
    pub fn priority(&self, class: u32) -> u8
        requires class { class < length self.now.tree }
        ensures { result ≡ (class_of self.now.tree class).priority }
    {
        self.classes[class as usize].priority
    }

    /// How many rounds a class needs until its credit pays for a packet.
    pub fn rounds(&self, class: u32, len: u32) -> u64
        requires class { class < length self.now.tree }
        ensures { result ≡ rounds_for (get_or self.now.credits class 0) (quantum_of self.now.rate (class_of self.now.tree class)) len }
    {
        let missing = u64::from(len).saturating_sub(self.credits[class as usize]);
        if missing == 0 {
            return 0;
        }
        let quantum = self.quantum(class);
        (missing + (quantum - 1)) / quantum
    }

    /// What decides between a class whose head has `len` bytes and others.
    pub fn rank(&self, class: u32, len: u32) -> Rank
        requires class { class < length self.now.tree }
        ensures priority { result.priority ≡ (class_of self.now.tree class).priority }
        ensures rounds { result.rounds ≡ rounds_for (get_or self.now.credits class 0) (quantum_of self.now.rate (class_of self.now.tree class)) len }
        ensures wraps { result.wraps ≡ nat_lt class (get_or self.now.cursors (class_of self.now.tree class).priority 0) }
        ensures class { result.class ≡ class }
    {
        let priority = self.classes[class as usize].priority;
        Rank {
            priority,
            rounds: self.rounds(class, len),
            wraps: class < self.cursors[priority as usize],
            class,
        }
    }
}
