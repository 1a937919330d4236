//! Sums over a list of curves.
ghost use Rattle.std.specs.Prelude.{◌≡◌, ◌≤◌, ◌^◌};
ghost use Rattle.admission.specs.Fit.{total};
ghost use Rattle.admission.specs.Bends.{AreInRange, slopes};

use service_curve::Curve;

/// What the curves together give in a time of up to 10^15 nanoseconds.
pub fn total_of(curves: &[Curve], t: u128) -> u128
    requires curves { AreInRange curves.now }
    requires time { t ≤ 10 ^ 15 }
    ensures { result ≡ total curves.now t }
{
    let mut sum = 0;
    for curve in curves {
        sum += curve.amount(t);
    }
    sum
}

/// What the curves together gain in a nanosecond after the last breakpoint.
pub fn slopes_of(curves: &[Curve]) -> u128
    requires { AreInRange curves.now }
    ensures { result ≡ slopes curves.now }
{
    let mut sum = 0;
    for curve in curves {
        sum += curve.m2 as u128;
    }
    sum
}
