//! What openings allow, one by one and two together.
ghost use Rattle.std.specs.Prelude.{◌≡◌, ◌<◌, ◌≤◌, ◌^◌, ◌∷◌, [], Some, nat_le, true};
ghost use Rattle.service_curve.specs.declared.Curve.{Curve};
ghost use Rattle.service_curve.specs.Curve.{IsInRange};
ghost use Rattle.runtime_curve.specs.Opening.{OpeningFits, line, eligible_curve};
ghost use Rattle.runtime_curve.specs.Deadline.{later_of, reached_at, deadline, reaches};
ghost use Rattle.runtime_curve.specs.Held.{AreOne};
ghost use Rattle.runtime_curve.specs.Lines.{allows_by};

use crate::Opening;
use crate::held::HeldOpenings;
use service_curve::{Curve, Inverses};

/// Up to moments before this one, in nanoseconds, amounts of curves fit in 128 bits.
const EARLY: u128 = 1 << 80;

/// The later of two moments, where `None` means never.
pub fn later_of(a: Option<u128>, b: Option<u128>) -> Option<u128>
    ensures { result ≡ later_of a b }
{
    match (a, b) {
        (Some(x), Some(y)) => Some(x.max(y)),
        _ => None,
    }
}

/// The first moment up to which an opening allows a count.
#[inline(always)]
pub fn reached_at(
    curve: &Curve,
    inverses: &Inverses,
    opening: &Opening,
    count: u128,
) -> Option<u128>
    requires in_range { IsInRange curve.now }
    requires within { OpeningFits opening.now }
    requires amount { count < 2 ^ 100 }
    ensures { result ≡ reached_at curve.now opening.now count }
{
    if count <= opening.count {
        return Some(0);
    }
    match curve.first_by(inverses, count - opening.count) {
        None => None,
        Some(t) => Some(opening.at + t),
    }
}

/// The first moment up to which two openings allow a count: mostly that of the second, by which the first mostly allows it too.
#[inline(always)]
#[tactic(auto, using(crate::proofs::Deadlines::second_is_later))]
fn latest_of(
    curve: &Curve,
    inverses: &Inverses,
    one: &Opening,
    other: &Opening,
    count: u128,
) -> Option<u128>
    requires in_range { IsInRange curve.now }
    requires one { OpeningFits one.now }
    requires other { OpeningFits other.now }
    requires amount { count < 2 ^ 100 }
    ensures { result ≡ deadline curve.now (one.now ∷ other.now ∷ []) count }
{
    let reached = reached_at(curve, inverses, other, count);
    if allows_by(curve, one, reached, count) {
        return reached;
    }
    later_than(curve, inverses, one, reached, count)
}

/// The later of the first moment up to which an opening allows a count, and another moment.
#[inline(never)]
fn later_than(
    curve: &Curve,
    inverses: &Inverses,
    opening: &Opening,
    other: Option<u128>,
    count: u128,
) -> Option<u128>
    requires in_range { IsInRange curve.now }
    requires within { OpeningFits opening.now }
    requires amount { count < 2 ^ 100 }
    ensures { result ≡ later_of (reached_at curve.now opening.now count) (later_of other (Some 0)) }
{
    later_of(
        reached_at(curve, inverses, opening, count),
        later_of(other, Some(0)),
    )
}

/// Whether an opening allows a count up to a moment that is there, and is early enough for the amounts of a curve.
fn allows_by(curve: &Curve, opening: &Opening, moment: Option<u128>, count: u128) -> bool
    requires in_range { IsInRange curve.now }
    requires within { OpeningFits opening.now }
    ensures { result ≡ allows_by curve.now opening.now moment count }
{
    match moment {
        Some(moment) if moment < EARLY => allows(curve, opening, moment, count),
        _ => false,
    }
}

/// The first moment up to which the openings that stand for all allow a count. Where the slope does not fall they are one.
#[inline(never)]
#[tactic(auto, using(crate::proofs::TwoLines::one_line))]
pub fn deadline_of(
    curve: &Curve,
    inverses: &Inverses,
    held: &HeldOpenings,
    count: u128,
) -> Option<u128>
    requires in_range { IsInRange curve.now }
    requires steep { OpeningFits held.now.steep }
    requires flat { OpeningFits held.now.flat }
    requires one { AreOne curve.now held.now }
    requires amount { count < 2 ^ 100 }
    ensures { result ≡ deadline curve.now (held.now.steep ∷ held.now.flat ∷ []) count }
{
    if curve.m1 <= curve.m2 {
        return reached_at(curve, inverses, &held.flat, count);
    }
    latest_of(curve, inverses, &held.steep, &held.flat, count)
}

/// The same by the curve that makes a class eligible.
#[tactic(auto, using(crate::proofs::TwoLines::one_line, crate::proofs::TwoLines::falls))]
pub fn early_of(
    curve: &Curve,
    inverses: &Inverses,
    held: &HeldOpenings,
    count: u128,
) -> Option<u128>
    requires in_range { IsInRange curve.now }
    requires steep { OpeningFits held.now.steep }
    requires flat { OpeningFits held.now.flat }
    requires one { AreOne curve.now held.now }
    requires amount { count < 2 ^ 100 }
    ensures { result ≡ deadline (eligible_curve curve.now) (held.now.steep ∷ held.now.flat ∷ []) count }
{
    if curve.m1 <= curve.m2 {
        return early_at(curve, inverses, &held.flat, count);
    }
    latest_of(curve, inverses, &held.steep, &held.flat, count)
}

/// The first moment up to which an opening allows a count by the curve that makes a class eligible.
#[tactic(auto, using(crate::proofs::TwoLines::rises_not))]
pub fn early_at(curve: &Curve, inverses: &Inverses, opening: &Opening, count: u128) -> Option<u128>
    requires in_range { IsInRange curve.now }
    requires within { OpeningFits opening.now }
    requires amount { count < 2 ^ 100 }
    ensures { result ≡ reached_at (eligible_curve curve.now) opening.now count }
{
    if curve.m2 <= curve.m1 {
        return reached_at(curve, inverses, opening, count);
    }
    reached_at(&eligible_curve(curve), &of_second(inverses), opening, count)
}

/// Whether two openings had a count already, and so allow it at every moment. Those of a class that just opened mostly do.
#[tactic(auto, using(crate::proofs::Reaching::counted))]
pub fn both_counted(one: &Opening, other: &Opening, count: u128) -> bool
    ensures { result ≡ true → (s : Curve) → deadline s (one.now ∷ other.now ∷ []) count ≡ Some 0 }
{
    count <= one.count && count <= other.count
}

/// The numbers of the line of the second slope.
fn of_second(inverses: &Inverses) -> Inverses
    ensures first { result.first ≡ inverses.now.second }
    ensures second { result.second ≡ inverses.now.second }
{
    Inverses {
        first: inverses.second,
        second: inverses.second,
    }
}

/// The curve that makes a class eligible.
pub fn eligible_curve(curve: &Curve) -> Curve
    requires { IsInRange curve.now }
    ensures is { result ≡ eligible_curve curve.now }
    ensures in_range { IsInRange result }
{
    if curve.m2 <= curve.m1 {
        *curve
    } else {
        Curve {
            m1: curve.m2,
            d: 0,
            m2: curve.m2,
        }
    }
}

/// Whether an opening allows a count up to a moment.
pub fn allows(curve: &Curve, opening: &Opening, now: u128, count: u128) -> bool
    requires in_range { IsInRange curve.now }
    requires within { OpeningFits opening.now }
    requires now { now < 2 ^ 80 }
    ensures { result ≡ nat_le count (line curve.now now opening.now) }
{
    count <= opening.count + curve.amount(now.saturating_sub(opening.at))
}

/// Whether two openings allow a count up to a moment.
pub fn both_allow(curve: &Curve, one: &Opening, other: &Opening, now: u128, count: u128) -> bool
    requires in_range { IsInRange curve.now }
    requires one { OpeningFits one.now }
    requires other { OpeningFits other.now }
    requires now { now < 2 ^ 80 }
    ensures { result ≡ reaches curve.now (one.now ∷ other.now ∷ []) now count }
{
    allows(curve, one, now, count) && allows(curve, other, now, count)
}
