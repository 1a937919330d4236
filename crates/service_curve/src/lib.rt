//! Service curves of two pieces: how much they give in a time, and the least time in which they give an amount.
//!
//! Times are in nanoseconds and slopes in bits per second. Amounts are in units, of which a byte has 8,000,000,000: so a
//! slope of m bits per second gives exactly m·t units in t nanoseconds, and every amount is a whole number.
//!
//! No call takes memory, and each takes constant time. The source is Stoica, Zhang and Ng, "A Hierarchical Fair Service
//! Curve Algorithm for Link-Sharing, Real-Time and Priority Services", SIGCOMM 1997.
#![tactic(auto)]

ghost use Rattle.std.specs.Prelude.{◌≡◌, ◌≢◌, ◌<◌, ◌≤◌, ◌+◌, ◌-◌, ◌*◌, ◌/◌, ◌^◌, ◌↔◌, ℕ, IfSome, Some, None};
ghost use Rattle.service_curve.specs.Curve.{IsInRange, amount, curve, first, straight, time_at};
ghost use Rattle.service_curve.specs.Inverse.{inverses};
ghost use Rattle.service_curve.specs.Moment.{IsFirst};

mod inverses;

pub use inverses::Inverses;
use inverses::time_at;
use quotients::inverse;

/// A service curve of two pieces: the slope `m1` for a time of `d`, and from there on the slope `m2`.
///
/// Slopes are in bits per second, up to 10^12; `d` is in nanoseconds, up to 10^15. A curve with `d` = 0 is the line of slope
/// `m2`. In a time of 0 it gives 0.
#[derive(Clone, Copy, Debug, PartialEq, Eq)]
pub struct Curve {
    pub m1: u64,
    pub d: u64,
    pub m2: u64,
}

/// One slope, the time before it begins, and the amount that it is to give from there.
#[derive(Clone, Copy)]
struct Piece {
    slope: u64,
    before: u64,
    rest: u128,
}

impl Curve {
    /// The curve of these slopes and this bend, in the one form that all equal curves have: where there is no first piece
    /// (`d` = 0) or both slopes are one, it is the line of slope `m2`, with `d` = 0 and `m1` = `m2`.
    #[tactic(auto, using(crate::proofs::Amounts::straight_without_piece, crate::proofs::Amounts::straight_of_one_slope))]
    pub fn make(m1: u64, d: u64, m2: u64) -> Curve
        ensures no_piece { d ≡ 0 → result ≡ straight m2 }
        ensures one_slope { m1 ≡ m2 → result ≡ straight m2 }
        ensures bent { d ≢ 0 → m1 ≢ m2 → result ≡ curve m1 d m2 }
        ensures normal { (result.d ≡ 0) ↔ (result.m1 ≡ result.m2) }
        ensures in_range { IsInRange (curve m1 d m2) → IsInRange result }
        ensures same { (t : ℕ) → amount result t ≡ amount (curve m1 d m2) t }
    {
        if d == 0 || m1 == m2 {
            Curve { m1: m2, d: 0, m2 }
        } else {
            Curve { m1, d, m2 }
        }
    }

    /// The units that the curve gives in `t` nanoseconds, where `t` is less than 2^80.
    pub fn amount(&self, t: u128) -> u128
        requires in_range { IsInRange self.now }
        requires time { t < 2 ^ 80 }
        ensures first_piece { t ≤ self.now.d → result ≡ self.now.m1 * t }
        ensures second_piece { self.now.d ≤ t → result ≡ self.now.m1 * self.now.d + self.now.m2 * (t - self.now.d) }
        ensures is { result ≡ amount self.now t }
        ensures bounded { result ≤ 10 ^ 12 * t }
    {
        let d = self.d as u128;
        if t <= d {
            self.m1 as u128 * t
        } else {
            self.m1 as u128 * d + self.m2 as u128 * (t - d)
        }
    }

    /// The least time, in nanoseconds, in which the curve gives `wanted` units, where `wanted` is less than 2^100. `None`
    /// comes exactly where it never gives so much: its second slope is 0, and its first piece gives less.
    #[inline(never)]
    pub fn first(&self, wanted: u128) -> Option<u128>
        requires in_range { IsInRange self.now }
        requires wanted { wanted < 2 ^ 100 }
        ensures least { IsFirst (λ t. wanted ≤ amount self.now t) result }
        ensures is { result ≡ first self.now wanted }
        ensures bounded { IfSome result (λ t. t ≤ self.now.d + wanted) }
    {
        let piece = self.piece(wanted);
        if piece.slope == 0 {
            return if piece.rest == 0 { Some(0) } else { None };
        }
        let slope = u128::from(piece.slope);
        Some(u128::from(piece.before) + (piece.rest + (slope - 1)) / slope)
    }

    /// The numbers by which `first_by` guesses quotients.
    pub fn inverses(&self) -> Inverses
        ensures { result ≡ inverses self.now }
    {
        Inverses {
            first: inverse(self.m1),
            second: inverse(self.m2),
        }
    }

    /// What `first` answers, and at less cost where the numbers are those of the curve: then amounts below 2^64 are not
    /// divided. With others it answers the same. Constant time.
    #[inline(always)]
    pub fn first_by(&self, inverses: &Inverses, wanted: u128) -> Option<u128>
        requires in_range { IsInRange self.now }
        requires wanted { wanted < 2 ^ 100 }
        ensures least { IsFirst (λ t. wanted ≤ amount self.now t) result }
        ensures is { result ≡ first self.now wanted }
        ensures bounded { IfSome result (λ t. t ≤ self.now.d + wanted) }
    {
        if wanted == 0 || wanted > u128::from(u64::MAX) {
            return self.first(wanted);
        }
        self.first_short(inverses, wanted as u64)
    }

    /// The same for an amount of one word, which is not 0.
    #[inline(always)]
    fn first_short(&self, inverses: &Inverses, wanted: u64) -> Option<u128>
        requires in_range { IsInRange self.now }
        requires wanted { 1 ≤ wanted }
        ensures is { result ≡ first self.now wanted }
    {
        let bend = u128::from(self.m1) * u128::from(self.d);
        if u128::from(wanted) <= bend {
            return Some(u128::from(time_at(wanted, self.m1, inverses.first)));
        }
        if self.m2 == 0 {
            return None;
        }
        let rest = wanted - bend as u64;
        Some(u128::from(self.d) + u128::from(time_at(rest, self.m2, inverses.second)))
    }

    /// The piece in which the curve comes to give an amount.
    fn piece(&self, wanted: u128) -> Piece
        requires in_range { IsInRange self.now }
        requires wanted { wanted < 2 ^ 100 }
        ensures least { result.rest ≤ wanted }
        ensures slope { result.slope ≤ 10 ^ 12 }
        ensures before { result.before ≤ self.now.d }
        ensures some { result.slope ≢ 0 → first self.now wanted ≡ Some (result.before + time_at result.slope result.rest) }
        ensures nothing { result.slope ≡ 0 → result.rest ≡ 0 → first self.now wanted ≡ Some 0 }
        ensures never { result.slope ≡ 0 → result.rest ≢ 0 → first self.now wanted ≡ None }
    {
        let bend = self.m1 as u128 * self.d as u128;
        if wanted <= bend {
            Piece {
                slope: self.m1,
                before: 0,
                rest: wanted,
            }
        } else {
            Piece {
                slope: self.m2,
                before: self.d,
                rest: wanted - bend,
            }
        }
    }
}

/// Worked examples of the definitions.
pub fn worked_curves()
    ensures nothing { amount (curve 6000000 10000000 1000000) 0 ≡ 0 }
    ensures bend { amount (curve 6000000 10000000 1000000) 10000000 ≡ 60000000000000 }
    ensures past { amount (curve 6000000 10000000 1000000) 10000001 ≡ 60000001000000 }
    ensures of_200_bytes { first (curve 4000000 5000000 1000000) 1600000000000 ≡ Some 400000 }
    ensures after_a_wait { first (curve 0 20000000 4000000) 16000000000000 ≡ Some 24000000 }
    ensures all { first (curve 8000000 10000000 0) 80000000000000 ≡ Some 10000000 }
    ensures never { first (curve 8000000 10000000 0) 80000000000001 ≡ None }
{}
