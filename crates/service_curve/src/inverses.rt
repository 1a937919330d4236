//! Times by the slopes of a curve, of which a product guesses the quotients.
ghost use Rattle.std.specs.Prelude.{◌≡◌, ◌<◌, ◌≤◌};
ghost use Rattle.service_curve.specs.Curve.{time_at};

use quotients::quotient;

/// Numbers by which quotients by the two slopes of a curve are guessed: 2^64 - 1 divided by each slope, 0 for a slope of 0.
#[derive(Clone, Copy, Debug, PartialEq, Eq)]
pub struct Inverses {
    pub first: u64,
    pub second: u64,
}

/// The least time in which a slope gives an amount.
#[inline(always)]
pub fn time_at(amount: u64, slope: u64, inverse: u64) -> u64
    requires slope { 0 < slope }
    requires amount { 1 ≤ amount }
    ensures { result ≡ time_at slope amount }
{
    quotient(amount - 1, slope, inverse) + 1
}
