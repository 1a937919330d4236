//! Whether service curves fit a link: whether what they give together ever exceeds what the link carries.
//!
//! A link that its curves fit can keep all of them at once. Moments are in nanoseconds, rates in bits per second, amounts
//! in units, of which a byte has 8,000,000,000: so a link of R bits per second carries R·t units in t nanoseconds.
//!
//! Nothing here takes memory. The source is Stoica, Zhang and Ng, "A Hierarchical Fair Service Curve Algorithm for
//! Link-Sharing, Real-Time and Priority Services", SIGCOMM 1997.
#![tactic(auto)]

ghost use Rattle.std.specs.Prelude.{◌≡◌, ◌≤◌, ◌+◌, ◌*◌, ◌^◌, ◌↔◌, ◌∷◌, [], None};
ghost use Rattle.service_curve.specs.Curve.{curve, straight};
ghost use Rattle.service_curve.specs.Moment.{IsFirst};
ghost use Rattle.admission.specs.declared.Fit.{Fit};
ghost use Rattle.admission.specs.Answer.{IfExceeds};
ghost use Rattle.admission.specs.Fit.{total, Fits, IsAbove, IsBendAbove, IsExcess};
ghost use Rattle.admission.specs.Bends.{AreInRange};

use bends::{first_bend_above, last_bend_of};
use service_curve::Curve;
use sums::{slopes_of, total_of};

mod bends;
mod sums;

/// Whether curves fit a link, and if not, where they exceed it.
#[derive(Clone, Copy, Debug, PartialEq, Eq)]
pub enum Fit {
    /// At no moment is the sum of the curves above what the link carries.
    Fits,
    /// At the moment `at`, in nanoseconds, the sum of the curves is `by` units above what the link carries.
    Exceeds { at: u128, by: u128 },
}

/// Whether the curves fit a link of `rate` bits per second, up to 10^12. There are at most 256 curves.
///
/// `Exceeds` comes exactly where the sum of the curves is above `rate`·t units at some t. It names the least breakpoint,
/// the `d` of a curve where that is not 0, at which the sum is above. If there is none, it names the least moment after
/// the last breakpoint, or after 0 where no curve has one.
///
/// It takes time in proportion to the square of the number of curves.
pub fn fits(curves: &[Curve], rate: u64) -> Fit
    requires curves { AreInRange curves.now }
    requires rate { rate ≤ 10 ^ 12 }
    ensures fits { (result ≡ Fit.Fits) ↔ Fits rate curves.now }
    ensures exceeds { IfExceeds result (IsExcess rate curves.now) }
{
    match first_bend_above(curves, rate) {
        Some(at) => Fit::Exceeds {
            at,
            by: total_of(curves, at) - rate as u128 * at,
        },
        None => fit_past_bends(curves, rate),
    }
}

/// Whether the curves fit, where the sum is above at no breakpoint.
///
/// From the last breakpoint on the spare capacity, what the link carries less the sum, shrinks by the same amount in each
/// nanosecond, so one division gives the moment. The sum at that moment is not computed, since it may need more than 128
/// bits.
fn fit_past_bends(curves: &[Curve], rate: u64) -> Fit
    requires curves { AreInRange curves.now }
    requires rate { rate ≤ 10 ^ 12 }
    requires bends { IsFirst (IsBendAbove rate curves.now) None }
    ensures fits { (result ≡ Fit.Fits) ↔ Fits rate curves.now }
    ensures exceeds { IfExceeds result (IsExcess rate curves.now) }
{
    let slopes = slopes_of(curves);
    if slopes <= rate as u128 {
        return Fit::Fits;
    }
    let last = last_bend_of(curves) as u128;
    let room = rate as u128 * last - total_of(curves, last);
    let loss = slopes - rate as u128;
    Fit::Exceeds {
        at: last + (room / loss + 1),
        by: loss - room % loss,
    }
}

/// Worked examples of the definitions, on a link of 8 megabits a second.
pub fn worked_sums()
    ensures at_once { IsAbove 8000000 (straight 5000000 ∷ straight 5000000 ∷ []) 1 }
    ensures by_2000000 { total (straight 5000000 ∷ straight 5000000 ∷ []) 1 ≡ 8000000 * 1 + 2000000 }
    ensures at_the_bend { total (curve 6000000 10000000 1000000 ∷ curve 6000000 10000000 1000000 ∷ []) 10000000
        ≡ 8000000 * 10000000 + 40000000000000 }
    ensures equal { total (curve 0 10000000 8000000 ∷ curve 8000000 10000000 0 ∷ []) 26000000 ≡ 8000000 * 26000000 }
{}
