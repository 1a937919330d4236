//! The gap of two siblings, and its bound.
ghost use Rattle.std.specs.Prelude.{◌≡◌, ◌≤◌, ◌<◌, ◌^◌, max};
ghost use Rattle.play_base.specs.Units.{ceil_div};
ghost use Rattle.fair_shares.specs.Sharing.{bend_of, step_of};
ghost use Rattle.share_gaps.specs.Bounds.{bound_of, gap_of, is_alone, most_of, shares_alone};
ghost use Rattle.share_gaps.specs.Within.{rate_of};

use hfsc_model::HfscClass;
use service_curve::Curve;

/// How far apart the work of two siblings was: their numbers; their gap, in nanoseconds at both rates, rounded up, where both have
/// linear curves; and the bound that it keeps, where link sharing alone decides.
#[derive(Clone, Copy)]
pub struct Gap {
    pub first: u32,
    pub second: u32,
    pub gap: Option<u128>,
    pub bound: Option<u128>,
}

/// The slope of a class's link-sharing curve, where that is a line from 0.
pub fn rate_of(class: &HfscClass) -> Option<u64>
    ensures { result ≡ rate_of class.now }
{
    match class.share {
        Some(curve) if curve.d == 0 => Some(curve.m2),
        _ => None,
    }
}

/// The bend of a curve that rises, else 0.
fn bend_of(curve: &Curve) -> u64
    ensures { result ≡ bend_of curve.now }
{
    if curve.m1 < curve.m2 { curve.d } else { 0 }
}

/// A quotient, rounded up; 0 where it is by 0.
fn ceil_div(amount: u128, by: u128) -> u128
    ensures is { result ≡ ceil_div amount by }
    ensures most { result ≤ amount }
{
    if by == 0 {
        return 0;
    }
    amount.div_ceil(by)
}

/// By how much, at most, `amount` units move the virtual time of a class with this curve.
fn step_of(curve: Option<Curve>, amount: u128) -> u128
    requires { amount < 2 ^ 100 }
    ensures is { result ≡ step_of curve amount }
    ensures small { result < 2 ^ 101 }
{
    match curve {
        None => 0,
        Some(curve) => { ceil_div(amount, u128::from(curve.m2)) + u128::from(bend_of(&curve)) }
    }
}

/// Link sharing alone decides of this class: it has no upper limit, and no real-time curve but for one that is 0 everywhere.
pub fn is_alone(class: &HfscClass) -> bool
    ensures { result ≡ is_alone class.now }
{
    if class.limit.is_some() {
        return false;
    }
    match class.real {
        None => true,
        Some(curve) => curve.m1 == 0 && curve.m2 == 0,
    }
}

/// The same of each of these classes.
pub fn are_alone(classes: &[HfscClass]) -> bool
    ensures { result ≡ shares_alone classes.now }
{
    classes.iter().all(|class| is_alone(class))
}

/// The greater of two amounts.
fn greater(one: u128, other: u128) -> u128
    ensures { result ≡ max one other }
{
    one.max(other)
}

/// The greatest step of the children of class `parent` for `amount` units.
pub fn most_of(classes: &[HfscClass], parent: u32, amount: u128) -> u128
    requires { amount < 2 ^ 100 }
    ensures is { result ≡ most_of classes.now parent amount }
    ensures small { result < 2 ^ 101 }
{
    let mut most = 0;
    for class in classes {
        if class.parent == Some(parent) {
            most = greater(most, step_of(class.share, amount));
        }
    }
    most
}

/// The gap of two siblings at these rates, whose greatest difference is `most`.
pub fn gap_of(most: u128, rate: Option<u64>, other: Option<u64>) -> Option<u128>
    ensures { result ≡ gap_of most rate other }
{
    match (rate, other) {
        (Some(rate), Some(other)) => { Some(ceil_div(most, u128::from(rate) * u128::from(other))) }
        _ => None,
    }
}

/// The bound of the gaps of the children of a class.
pub fn bound_of(classes: &[HfscClass], parent: Option<u32>, amount: u128) -> Option<u128>
    requires { amount < 2 ^ 100 }
    ensures { result ≡ bound_of classes.now parent amount }
{
    let parent = parent?;
    Some(2 * most_of(classes, parent, amount) + 2)
}
