//! Breakpoints of a list of curves: the moments at which one of them has its bend.
ghost use Rattle.std.specs.Prelude.{◌≡◌, ◌≤◌, ◌^◌, IfSome};
ghost use Rattle.service_curve.specs.Curve.{IsInRange};
ghost use Rattle.service_curve.specs.Moment.{IsFirst};
ghost use Rattle.admission.specs.Fit.{IsBendAbove};
ghost use Rattle.admission.specs.Bends.{AreInRange, last_bend, IsOwnBendAbove, earlier_of};

use crate::sums::total_of;
use service_curve::Curve;

/// The earlier of two moments, where `None` means never.
fn earlier_of(a: Option<u128>, b: Option<u128>) -> Option<u128>
    ensures { result ≡ earlier_of a b }
{
    match (a, b) {
        (Some(x), Some(y)) => Some(x.min(y)),
        (Some(x), None) => Some(x),
        (None, b) => b,
    }
}

/// The bend of one of the curves, where it is a breakpoint and the sum of all is above.
fn bend_above(curves: &[Curve], curve: Curve, rate: u64) -> Option<u128>
    requires curves { AreInRange curves.now }
    requires curve { IsInRange curve }
    requires rate { rate ≤ 10 ^ 12 }
    ensures first { IsFirst (IsOwnBendAbove rate curves.now curve) result }
    ensures bounded { IfSome result (λ at. at ≤ 10 ^ 15) }
{
    let at = curve.d as u128;
    if at > 0 && rate as u128 * at < total_of(curves, at) {
        Some(at)
    } else {
        None
    }
}

/// The least breakpoint at which the sum is above.
pub fn first_bend_above(curves: &[Curve], rate: u64) -> Option<u128>
    requires curves { AreInRange curves.now }
    requires rate { rate ≤ 10 ^ 12 }
    ensures first { IsFirst (IsBendAbove rate curves.now) result }
    ensures bounded { IfSome result (λ at. at ≤ 10 ^ 15) }
{
    let mut first = None;
    for curve in curves {
        first = earlier_of(first, bend_above(curves, *curve, rate));
    }
    first
}

/// The last breakpoint, 0 where there is none.
pub fn last_bend_of(curves: &[Curve]) -> u64
    requires { AreInRange curves.now }
    ensures is { result ≡ last_bend curves.now }
    ensures bounded { result ≤ 10 ^ 15 }
{
    let mut last = 0;
    for curve in curves {
        last = curve.d.max(last);
    }
    last
}
