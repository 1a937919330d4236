//! Service curves over the openings of a class: when a class is to have sent an amount, and whether it may send now.
//!
//! A class opens when a packet comes to it while nothing of it waits. An opening is the moment of that, and the count of
//! what the class was sent before it. From each opening on the class is allowed its count and what its curve gives; of
//! all openings the least counts. Moments are in nanoseconds, counts in units, of which a byte has 8,000,000,000.
//!
//! Of all openings at most three are kept, so nothing here takes memory and each call takes constant time. The source is
//! Stoica, Zhang and Ng, "A Hierarchical Fair Service Curve Algorithm for Link-Sharing, Real-Time and Priority Services",
//! SIGCOMM 1997: the deadline curve and the eligible curve.
#![tactic(auto)]

ghost use Rattle.std.specs.Prelude.{◌≡◌, ◌<◌, ◌≤◌, ◌^◌, ◌∷◌, ◌↔◌, [], List, ℕ, None, Some, IsTrue, IsSome, IsSomeAnd};
ghost use Rattle.std.specs.Option.{ForSome};
ghost use Rattle.service_curve.specs.declared.Curve.{Curve};
ghost use Rattle.service_curve.specs.Curve.{IsInRange, curve};
ghost use Rattle.service_curve.specs.Moment.{IsFirst, HasCome};
ghost use Rattle.runtime_curve.specs.declared.Opening.{Opening};
ghost use Rattle.runtime_curve.specs.Opening.{opening, RisesFromZero, least_over, IsAtLeast, Reaches, eligible_curve, IsFrom};
ghost use Rattle.runtime_curve.specs.Deadline.{deadline, reaches, soonest};
ghost use Rattle.runtime_curve.specs.Held.{IsKept};

use service_curve::{Curve, Inverses};

mod held;
mod lines;

use held::{Kept, add_opening};
use lines::{
    allows, both_allow, both_counted, deadline_of, early_at, early_of, eligible_curve, later_of,
    reached_at,
};

/// A moment at which a class opened, in nanoseconds, and the units that it had been sent by real time before it.
#[derive(Clone, Copy, Debug, PartialEq, Eq)]
pub struct Opening {
    pub at: u128,
    pub count: u128,
}

/// A curve over the openings of a class.
///
/// Contracts say for which curve and which openings a value stands. Of these the last one is the latest and has the
/// greatest count, by the conditions of `begin`.
#[derive(Clone, Copy, Debug, PartialEq, Eq)]
pub struct Running {
    curve: Curve,
    inverses: Inverses,
    kept: Kept,
    ghost in_range: { IsInRange curve },
    ghost slopes: { RisesFromZero curve },
    ghost held: { IsKept curve kept },
}

impl Running {
    ghost use Rattle.runtime_curve.specs.Running.{Represents, last_of, deadline_now, eligible_now, soonest_now};

    /// The curve without an opening. If its slope rises, it has to rise from 0.
    pub fn new(curve: Curve) -> Running
        requires in_range { IsInRange curve }
        requires slopes { RisesFromZero curve }
        ensures none { Represents result curve [] }
        ensures empty { last_of result ≡ None }
    {
        Running {
            curve,
            inverses: curve.inverses(),
            kept: Kept::Nothing,
        }
    }

    /// Adds an opening at a moment before 2^80 with a count below 2^100, neither of which is less than in the opening
    /// before it.
    #[inline(always)]
    pub fn begin(&mut self, at: u128, count: u128)
        requires at { at < 2 ^ 80 }
        requires count { count < 2 ^ 100 }
        requires later { ForSome (last_of self.old) (λ last. (last.at ≤ at) × (last.count ≤ count)) }
        ensures opened { (s : Curve) (os : List Opening) → Represents self.old s os
            → Represents self.new s (opening at count ∷ os) }
        ensures last { last_of self.new ≡ Some (opening at count) }
    {
        add_opening(&self.curve, &mut self.kept, Opening { at, count });
    }

    /// The deadline: the first moment, in nanoseconds, at which the deadline curve, the least over all openings, reaches
    /// `count` units. `None` comes exactly where there is no such moment. There is an opening; `count` is greater than the
    /// last one's, and less than 2^100.
    #[inline(always)]
    pub fn deadline(&self, count: u128) -> Option<u128>
        requires amount { count < 2 ^ 100 }
        requires opened { IsSomeAnd (last_of self.now) (λ last. last.count < count) }
        ensures first { (s : Curve) (os : List Opening) → Represents self.now s os
            → IsFirst (λ t. IsAtLeast (least_over s os t) count) result }
        ensures is { (s : Curve) (os : List Opening) → Represents self.now s os → result ≡ deadline s os count }
        ensures now { result ≡ deadline_now self.now count }
    {
        self.deadline_kept(count)
    }

    /// The same by what is kept.
    #[inline(always)]
    fn deadline_kept(&self, count: u128) -> Option<u128>
        requires { count < 2 ^ 100 }
        ensures { result ≡ deadline_now self.now count }
    {
        match &self.kept {
            Kept::Nothing => Some(0),
            Kept::One(only) => reached_at(&self.curve, &self.inverses, only, count),
            Kept::Three(held) => deadline_of(&self.curve, &self.inverses, held, count),
        }
    }

    /// Whether a class that was sent `count` units may be sent more at `now`, a moment in nanoseconds: whether the eligible
    /// curve, the least over all openings, has reached the count. There is an opening, and none is later than `now`; `now`
    /// is less than 2^80, and `count` less than 2^101.
    pub fn eligible(&self, now: u128, count: u128) -> bool
        requires now { now < 2 ^ 80 }
        requires amount { count < 2 ^ 101 }
        requires opened { IsSomeAnd (last_of self.now) (λ last. last.at ≤ now) }
        ensures reached { (s : Curve) (os : List Opening) → Represents self.now s os
            → (IsTrue result ↔ IsAtLeast (least_over (eligible_curve s) os now) count) }
        ensures is { (s : Curve) (os : List Opening) → Represents self.now s os
            → result ≡ reaches (eligible_curve s) os now count }
        ensures now { result ≡ eligible_now self.now now count }
    {
        self.eligible_kept(now, count)
    }

    /// The same by what is kept.
    fn eligible_kept(&self, now: u128, count: u128) -> bool
        requires { now < 2 ^ 80 }
        ensures { result ≡ eligible_now self.now now count }
    {
        let curve = eligible_curve(&self.curve);
        match &self.kept {
            Kept::Nothing => true,
            Kept::One(only) => allows(&curve, only, now, count),
            Kept::Three(held) => both_allow(&curve, &held.steep, &held.flat, now, count),
        }
    }

    /// The first moment, in nanoseconds and not before the last opening, at which a class that was sent `count` units
    /// may be sent more: the least over all openings of what makes it eligible reaches the count then. `None` comes
    /// exactly where there is no such moment. There is an opening, and `count` is less than 2^100.
    #[inline(always)]
    pub fn soonest(&self, count: u128) -> Option<u128>
        requires amount { count < 2 ^ 100 }
        requires opened { IsSome (last_of self.now) }
        ensures first { (s : Curve) (os : List Opening) → Represents self.now s os
            → IsFirst (λ t. IsFrom os t × IsAtLeast (least_over (eligible_curve s) os t) count) result }
        ensures is { (s : Curve) (os : List Opening) → Represents self.now s os → result ≡ soonest s os count }
        ensures now { result ≡ soonest_now self.now count }
    {
        self.soonest_kept(count)
    }

    /// The same by what is kept.
    #[inline(always)]
    fn soonest_kept(&self, count: u128) -> Option<u128>
        requires { count < 2 ^ 100 }
        ensures { result ≡ soonest_now self.now count }
    {
        match &self.kept {
            Kept::One(only) if count <= only.count => Some(only.at),
            _ => self.soonest_past(count),
        }
    }

    /// The same, whatever is kept.
    fn soonest_past(&self, count: u128) -> Option<u128>
        requires { count < 2 ^ 100 }
        ensures { result ≡ soonest_now self.now count }
    {
        match &self.kept {
            Kept::Nothing => Some(0),
            Kept::One(only) => later_of(
                early_at(&self.curve, &self.inverses, only, count),
                Some(only.at),
            ),
            Kept::Three(held) if both_counted(&held.steep, &held.flat, count) => Some(held.last.at),
            Kept::Three(held) => later_of(
                early_of(&self.curve, &self.inverses, held, count),
                Some(held.last.at),
            ),
        }
    }
}

/// The least over all openings of what they allow reaches a count exactly where each of them allows it, and the deadline is
/// the moment from which it does.
#[tactic(auto, using(crate::proofs::Reaching::least_is_for_each, crate::proofs::Deadlines::deadline_is_for_each))]
pub fn least_over_openings()
    ensures each { (s : Curve) (os : List Opening) (t count : ℕ) → (IsAtLeast (least_over s os t) count ↔ Reaches s os t count) }
    ensures come { (s : Curve) (os : List Opening) (t count : ℕ) → (HasCome (deadline s os count) t ↔ Reaches s os t count) }
{}

/// Worked examples of the definitions: a curve that gives nothing for 20 milliseconds and then 4 megabits a second.
pub fn worked_openings()
    ensures one_opening { deadline (curve 0 20000000 4000000) (opening 0 0 ∷ []) 16000000000000 ≡ Some 24000000 }
    ensures two_openings { deadline (curve 0 20000000 4000000)
        (opening 10000001 8000000000000 ∷ opening 0 0 ∷ []) 16000000000000 ≡ Some 32000001 }
    ensures least { least_over (curve 0 20000000 4000000)
        (opening 10000001 8000000000000 ∷ opening 0 0 ∷ []) 32000000 ≡ Some 15999996000000 }
    ensures before_an_opening { least_over (curve 8000000 10000000 0) (opening 16000000 7 ∷ []) 15999999 ≡ Some 7 }
    ensures early { least_over (eligible_curve (curve 0 20000000 4000000)) (opening 0 0 ∷ []) 5 ≡ Some 20000000 }
    ensures falling { eligible_curve (curve 8000000 10000000 0) ≡ curve 8000000 10000000 0 }
    ensures first_is_last { deadline (curve 8000000 10000000 2000000)
        (opening 1000000 24000000000000 ∷ opening 0 0 ∷ []) 32000000000000 ≡ Some 4000000 }
    ensures soonest_after { soonest (curve 2000000 0 2000000) (opening 5 1000000 ∷ opening 0 0 ∷ []) 9000000 ≡ Some 9 }
    ensures soonest_at_last { soonest (curve 2000000 0 2000000) (opening 5 1000000 ∷ opening 0 0 ∷ []) 1000000 ≡ Some 5 }
    ensures soonest_never { soonest (curve 8000000 10 0) (opening 0 0 ∷ []) 80000001 ≡ None }
{}
