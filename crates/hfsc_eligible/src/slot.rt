//! One class: its real-time curve over its openings, its count, and its head.
ghost use Rattle.std.specs.Prelude.{◌≡◌, ◌<◌, ◌≤◌, ◌^◌, ◌∷◌, [], ℕ, List, Option, None, Some, drop, is_some, IsSome, if◌then◌else◌};
ghost use Rattle.std.specs.Option.{ForSome};
ghost use Rattle.service_curve.specs.declared.Curve.{Curve};
ghost use Rattle.runtime_curve.specs.declared.Opening.{Opening};
ghost use Rattle.runtime_curve.specs.Opening.{opening};
ghost use Rattle.hfsc_model.specs.Leaf.{Leaf, new_leaf, after_kept, after_sent, head_len};
ghost use Rattle.hfsc_model.specs.RealTime.{unless_zero};
ghost use Rattle.hfsc_eligible.specs.Real.{CanCarry, RealStands, UpTo, IsOpen, last_in};

use play_base::units;
use runtime_curve::Running;
use service_curve::Curve;

/// Counts saturate here; no play reaches it.
const MOST: u128 = 1 << 99;

/// A class: its curve over its openings, where it has one that is not 0 everywhere, the units that it was sent by real
/// time, and the length of its head.
#[derive(Clone, Copy)]
pub struct Slot {
    real: Option<Running>,
    count: u128,
    head: Option<u32>,
    ghost count_small: { count ≤ 2 ^ 99 },
    ghost last: { UpTo count real },
    ghost head_long: { (n : ℕ) → head ≡ Some n → 1 ≤ n },
    ghost open: { (n : ℕ) → head ≡ Some n → IsOpen real },
}

impl Slot {
    ghost use Rattle.hfsc_eligible.specs.Slot.{SlotStands, IsOpenedAt, head_of, last_opening, slot_has_head, slot_deadline, slot_soonest};

    /// A class without a packet. A curve that is 0 everywhere counts as none.
    pub fn new(curve: Option<Curve>) -> Slot
        requires { CanCarry curve }
        ensures stands { SlotStands result (unless_zero curve) new_leaf }
        ensures closed { last_opening result ≡ None }
    {
        Slot {
            real: running_of(curve),
            count: 0,
            head: None,
        }
    }

    /// A packet of a length is kept where nothing waits.
    pub fn keep(&mut self, at: u64, len: u32)
        requires len { 1 ≤ len }
        requires later { ForSome (last_opening self.old) (λ last. last.at ≤ at) }
        ensures stands { (o : Option Curve) (l : Leaf) → SlotStands self.old o l → l.waiting ≡ [] → SlotStands self.new o (after_kept at len l) }
        ensures last { IsOpenedAt at self.new }
        ensures head { head_of self.new ≡ Some len }
    {
        begin(&mut self.real, u128::from(at), self.count);
        self.head = Some(len);
    }

    /// The head is sent; `head` is the next one's length.
    pub fn send(&mut self, len: u32, counted: bool, head: Option<u32>)
        requires waits { IsSome (head_of self.old) }
        requires head { (n : ℕ) → head ≡ Some n → 1 ≤ n }
        ensures stands { (o : Option Curve) (l : Leaf) → SlotStands self.old o l → head_len (drop 1 l.waiting) ≡ head
            → (after_sent len counted l).count ≤ 2 ^ 99 → SlotStands self.new o (after_sent len counted l) }
        ensures last { last_opening self.new ≡ last_opening self.old }
        ensures next { head_of self.new ≡ head }
    {
        if counted {
            self.count = (self.count + units(u64::from(len))).min(MOST);
        }
        self.head = head;
    }

    /// The class has a curve and a head.
    pub fn has_head(&self) -> bool
        ensures { result ≡ slot_has_head self.now }
    {
        self.real.is_some() && self.head.is_some()
    }

    /// The deadline of the head, where there is one.
    pub fn deadline(&self) -> Option<u128>
        ensures { result ≡ slot_deadline self.now }
    {
        match (&self.real, self.head) {
            (Some(real), Some(len)) => real.deadline(self.count + units(u64::from(len))),
            _ => None,
        }
    }

    /// The first moment from which the head may be sent by real time, where there is one.
    pub fn soonest(&self) -> Option<u128>
        ensures { result ≡ slot_soonest self.now }
    {
        match (&self.real, self.head) {
            (Some(real), Some(_)) => real.soonest(self.count),
            _ => None,
        }
    }
}

/// A curve without an opening; none where it is 0 everywhere.
fn running_of(curve: Option<Curve>) -> Option<Running>
    requires { CanCarry curve }
    ensures stands { RealStands result (unless_zero curve) [] }
    ensures last { last_in result ≡ None }
{
    match curve {
        None => None,
        Some(curve) => {
            if curve.m1 == 0 && curve.m2 == 0 {
                None
            } else {
                Some(Running::new(curve))
            }
        }
    }
}

/// Adds an opening, where there is a curve.
fn begin(real: &mut Option<Running>, at: u128, count: u128)
    requires at { at < 2 ^ 80 }
    requires count { count < 2 ^ 100 }
    requires later { ForSome (last_in real.old) (λ last. (last.at ≤ at) × (last.count ≤ count)) }
    ensures stands { (o : Option Curve) (os : List Opening) → RealStands real.old o os → RealStands real.new o (opening at count ∷ os) }
    ensures last { last_in real.new ≡ (if is_some real.old then Some (opening at count) else None) }
    ensures curve { is_some real.new ≡ is_some real.old }
{
    if let Some(real) = real {
        real.begin(at, count);
    }
}
