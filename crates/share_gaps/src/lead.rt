//! By how much one of two siblings is ahead.
ghost use Rattle.std.specs.Prelude.{◌≡◌, ℕ, Bool, Option};
ghost use Rattle.share_gaps.specs.Serve.{after_gains, gain_of};

/// By how much, at most, the work of each of two siblings by the rate of the other is ahead in a stretch in which both are active: of
/// the first in one that ends now, of the second in one that ends now, and of either in any.
#[derive(Clone, Copy)]
pub struct Lead {
    pub first: u128,
    pub second: u128,
    pub most: u128,
}

/// Nothing was sent yet.
pub const LEVEL: Lead = Lead {
    first: 0,
    second: 0,
    most: 0,
};

impl Lead {
    /// The leads after a sending that gains the one or the other this much; where not `both` are active a stretch ends.
    pub fn after(self, both: bool, first: u128, second: u128) -> Lead
        ensures { result ≡ after_gains self both first second }
    {
        if !both {
            return Lead {
                first: 0,
                second: 0,
                most: self.most,
            };
        }
        let one = self.first.saturating_add(first).saturating_sub(second);
        let other = self.second.saturating_add(second).saturating_sub(first);
        Lead {
            first: one,
            second: other,
            most: self.most.max(one).max(other),
        }
    }
}

/// `amount` times the rate of a sibling, 0 where that has none; at most 2^128 − 1.
pub fn gain(amount: u128, rate: Option<u64>) -> u128
    ensures { result ≡ gain_of amount rate }
{
    match rate {
        None => 0,
        Some(rate) => amount.saturating_mul(u128::from(rate)),
    }
}
