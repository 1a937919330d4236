//! The choice by real time: which head of the classes with a real-time curve is eligible, and has the least deadline.
//!
//! A class opens with each packet that is kept while nothing of it waits. Its head is eligible once its eligible curve has
//! reached what it was sent by real time, and its deadline is the moment at which its deadline curve reaches that with the
//! head. The heads that wait stand in two lists, by deadline and by the moment from which they are eligible; `build` takes
//! all memory. Moments are nanoseconds. The source is Stoica, Zhang and Ng, "A Hierarchical Fair Service Curve Algorithm
//! for Link-Sharing, Real-Time and Priority Services", SIGCOMM 1997.
#![tactic(auto)]

ghost use Rattle.std.specs.Prelude.{◌≡◌, ◌<◌, ◌≤◌, ◌^◌, ◌∷◌, [], ℕ, List, Option, None, Some, All, length, IfOk, MatchOption, true, if◌then◌else◌};
ghost use Rattle.std.specs.List.{find};
ghost use Rattle.std.specs.Option.{ForSome};
ghost use Rattle.service_curve.specs.declared.Curve.{Curve};
ghost use Rattle.ranking.specs.Order.{IsOrderOf, is_before, key_of};
ghost use Rattle.ranking.specs.Ranking.{keys_of, order_of};
ghost use Rattle.hfsc_model.specs.Event.{HfscHistory, Enqueued, Sent};
ghost use Rattle.hfsc_model.specs.Leaf.{leaf, head_len};
ghost use Rattle.hfsc_model.specs.RealTime.{curve_of, has_come, has_head, head_deadline, soonest_of, IsRealPick, NoneIsEligible, AreOpenBy};
ghost use Rattle.hfsc_eligible.specs.Real.{CanCarry};
ghost use Rattle.hfsc_eligible.specs.Slot.{slot_deadline, slot_soonest};
ghost use Rattle.hfsc_eligible.specs.Heads.{Holds, AreNew};

use play_base::NoMemory;
use ranking::Ranking;
use service_curve::Curve;
use std::alloc::Global;

mod heads;
mod laws;
mod slot;

use heads::{has_come, rank};
pub use laws::waiting_classes_open_once;
use slot::Slot;

/// The classes of an interface in the order of the file, and their heads.
///
/// Contracts say for which curves and which history of kept packets and sendings a value stands.
#[derive(Drop)]
pub struct Eligible {
    slots: Vec<Slot>,
    deadlines: Ranking,
    moments: Ranking,
    ghost by_deadline: { Holds slot_deadline slots.items deadlines },
    ghost by_moment: { Holds slot_soonest slots.items moments },
}

impl Eligible {
    ghost use Rattle.hfsc_eligible.specs.Eligible.{Represents, IsLeastSoonest, NoneHasOpened, IsSameBut, classes_of, come_at, head_at, opening_at, pick_now, soonest_now};

    /// The classes of these real-time curves, without a packet. A curve that is 0 everywhere counts as none. There are at
    /// most 256; a curve whose slope rises has to rise from 0.
    pub fn build(alloc: Global, curves: &[Option<Curve>]) -> Result<Eligible, NoMemory>
        requires classes { length curves.now ≤ 256 }
        requires curves { All CanCarry curves.now }
        ensures stands { IfOk result (λ e. Represents e curves.now []) }
        ensures classes { IfOk result (λ e. classes_of e ≡ length curves.now) }
        ensures new { IfOk result NoneHasOpened }
    {
        let slots = slots_of(alloc, curves)?;
        let classes = slots.len() as u32;
        let deadlines = Ranking::reserve(alloc, 0, classes, None)?;
        let moments = Ranking::reserve(alloc, 0, classes, None)?;
        Ok(Eligible {
            slots,
            deadlines,
            moments,
        })
    }

    /// A packet of `len` bytes, at least 1, was kept at the moment `at` in a class in which nothing waits. No opening of
    /// the class is later.
    pub fn open(&mut self, class: u32, at: u64, len: u32)
        requires class { class < classes_of self.old }
        requires empty { head_at self.old class ≡ None }
        requires len { 1 ≤ len }
        requires later { ForSome (opening_at self.old class) (λ last. last.at ≤ at) }
        ensures stands { (curves : List (Option Curve)) (h : HfscHistory) → Represents self.old curves h
            → Represents self.new curves (Enqueued class at len ∷ h) }
        ensures head { head_at self.new class ≡ Some len }
        ensures opening { ForSome (opening_at self.new class) (λ last. last.at ≡ at) }
        ensures others { IsSameBut class self.old self.new }
    {
        let slot = &mut self.slots[class as usize];
        slot.keep(at, len);
        rank(&mut self.deadlines, &mut self.moments, class, false, slot);
    }

    /// The head of a class, of `len` bytes, was sent, by real time where `counted`. `head` is the length of the next one,
    /// at least 1, `None` where nothing waits now. What is claimed of histories is claimed while a class was sent at most
    /// 2^99 units by real time. Where a head was sent by share and the next one is as long, nothing changes: constant time.
    pub fn sent(&mut self, class: u32, len: u32, counted: bool, head: Option<u32>)
        requires class { class < classes_of self.old }
        requires waits { head_at self.old class ≡ Some len }
        requires head { ForSome head (λ n. 1 ≤ n) }
        ensures stands { (curves : List (Option Curve)) (h : HfscHistory) (start : ℕ) → Represents self.old curves h
            → head_len (leaf (Sent class len counted start ∷ h) class).waiting ≡ head
            → (leaf (Sent class len counted start ∷ h) class).count ≤ 2 ^ 99
            → Represents self.new curves (Sent class len counted start ∷ h) }
        ensures next { head_at self.new class ≡ head }
        ensures opening { opening_at self.new class ≡ opening_at self.old class }
        ensures others { IsSameBut class self.old self.new }
    {
        if !counted && head == Some(len) {
            return;
        }
        self.advance(class, len, counted, head);
    }

    /// The class whose head is eligible at `now` and has the least deadline, a head without one coming after all others and
    /// a tie going to the class that stands earlier in the file. `None` comes exactly where no head is eligible. No opening
    /// is later than `now`. It looks at the heads in both orders by turns, up to the first eligible one by deadline or to the last
    /// eligible one by moment, whichever comes sooner.
    #[inline(always)]
    pub fn pick(&self, now: u64) -> Option<u32>
        ensures pick { (curves : List (Option Curve)) (h : HfscHistory) → Represents self.now curves h → AreOpenBy h now
            → MatchOption result (NoneIsEligible curves h now) (IsRealPick curves h now) }
        ensures is { result ≡ pick_now self.now now }
    {
        self.picked(u128::from(now))
    }

    /// The least moment from which some head is eligible, not before the last opening of its class. `None` comes exactly
    /// where no head that waits ever becomes eligible. Constant time.
    pub fn soonest(&self) -> Option<u128>
        ensures least { (curves : List (Option Curve)) (h : HfscHistory) → Represents self.now curves h → IsLeastSoonest curves h result }
        ensures is { result ≡ soonest_now self.now }
    {
        self.first_moment()
    }

    /// The classes with a curve and a head, in the order of their deadlines, those without a deadline last. Constant time.
    pub fn ranked(&self) -> &[u32]
        ensures { (curves : List (Option Curve)) (h : HfscHistory) → Represents self.now curves h
            → IsOrderOf (λ c. head_deadline (curve_of curves c) (leaf h c)) (λ c. has_head (curve_of curves c) (leaf h c)) result.now }
    {
        self.deadlines.as_slice()
    }

    /// The same classes in the order of the first moments, not before the last opening of a class, from which their heads
    /// are eligible, those without such a moment last. Constant time.
    pub fn early(&self) -> &[u32]
        ensures { (curves : List (Option Curve)) (h : HfscHistory) → Represents self.now curves h
            → IsOrderOf (λ c. soonest_of (curve_of curves c) (leaf h c)) (λ c. has_head (curve_of curves c) (leaf h c)) result.now }
    {
        self.moments.as_slice()
    }

    /// The head of a class was sent, and the next one takes its place in the lists.
    fn advance(&mut self, class: u32, len: u32, counted: bool, head: Option<u32>)
        requires class { class < classes_of self.old }
        requires waits { head_at self.old class ≡ Some len }
        requires head { ForSome head (λ n. 1 ≤ n) }
        ensures stands { (curves : List (Option Curve)) (h : HfscHistory) (start : ℕ) → Represents self.old curves h
            → head_len (leaf (Sent class len counted start ∷ h) class).waiting ≡ head
            → (leaf (Sent class len counted start ∷ h) class).count ≤ 2 ^ 99
            → Represents self.new curves (Sent class len counted start ∷ h) }
        ensures next { head_at self.new class ≡ head }
        ensures opening { opening_at self.new class ≡ opening_at self.old class }
        ensures others { IsSameBut class self.old self.new }
    {
        let slot = &mut self.slots[class as usize];
        let was = slot.has_head();
        slot.send(len, counted, head);
        rank(&mut self.deadlines, &mut self.moments, class, was, slot);
    }

    /// The moment of the first class in the order of the moments.
    fn first_moment(&self) -> Option<u128>
        ensures { result ≡ soonest_now self.now }
    {
        match self.moments.as_slice().first() {
            None => None,
            Some(class) => self.moments.key(*class),
        }
    }

    /// The first class in the order of the deadlines whose head is eligible, sought only where some head is.
    #[inline(always)]
    fn picked(&self, now: u128) -> Option<u32>
        ensures { result ≡ pick_now self.now now }
    {
        if !has_come(self.first_moment(), now) {
            return None;
        }
        self.first_come(now)
    }

    /// The first class in the order of the deadlines whose head is eligible, where some head is: the first that comes in that order, or
    /// the one of least deadline among those that come in the order of the moments, whichever walk is shorter.
    #[inline(never)]
    fn first_come(&self, now: u128) -> Option<u32>
        requires { has_come (soonest_now self.now) now ≡ true }
        ensures { result ≡ pick_now self.now now }
    {
        let order = self.deadlines.as_slice();
        let mut best = self.moments.as_slice()[0];
        for place in 0..order.len() {
            let class = order[place];
            if has_come(self.moments.key(class), now) {
                return Some(class);
            }
            let Some(other) = self.come_at(place + 1, now) else {
                return Some(best);
            };
            best = self.ahead(other, best);
        }
        None
    }

    /// Of two classes the one that goes before the other in the order of the deadlines.
    fn ahead(&self, other: u32, best: u32) -> u32
        ensures { result ≡ (if is_before (keys_of self.now.deadlines) other best then other else best) }
    {
        if self.deadlines.leads(other, best) {
            other
        } else {
            best
        }
    }

    /// The class at a place in the order of the moments, where there is one whose head is eligible.
    fn come_at(&self, place: usize, now: u128) -> Option<u32>
        ensures { result ≡ come_at self.now place now }
    {
        let early = self.moments.as_slice();
        if place >= early.len() {
            return None;
        }
        let class = early[place];
        if has_come(self.moments.key(class), now) {
            Some(class)
        } else {
            None
        }
    }
}

/// The slots of classes without a packet.
fn slots_of(alloc: Global, curves: &[Option<Curve>]) -> Result<Vec<Slot>, NoMemory>
    requires { All CanCarry curves.now }
    ensures classes { IfOk result (λ slots. length slots.items ≡ length curves.now) }
    ensures new { IfOk result (λ slots. AreNew curves.now slots.items) }
{
    let mut slots = Vec::with_capacity(alloc, curves.len())?;
    for curve in curves {
        slots.push(Slot::new(*curve))?;
    }
    Ok(slots)
}
