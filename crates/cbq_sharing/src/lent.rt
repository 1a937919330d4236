// What lenders answered last.
ghost use Rattle.std.specs.Prelude.{◌≡◌, ◌≤◌, ◌<◌, ◌^◌, ℕ, List};
ghost use Rattle.cbq_estimator.specs.Estimate.{Estimate};
ghost use Rattle.cbq_model.specs.declared.CbqClass.{CbqClass};
ghost use Rattle.link_clock.specs.Clock.{Clock};
ghost use Rattle.cbq_sharing.specs.Lent.{IsLent};

use link_clock::LinkClock;

/// A length in bytes, the end of a packet of it that starts now, and whether `lender` or one of the lenders above it allows that packet.
/// Classes of one parent ask the same, one after the other.
#[derive(Clone, Copy)]
pub struct Lent {
    pub len: u32,
    pub end: u64,
    pub lender: Option<u32>,
    pub lends: bool,
}

impl Lent {
    /// Nobody was asked yet: it has no length.
    pub fn none() -> Lent
        ensures { (cs : List CbqClass) (es : List Estimate) (clock : Clock) (t : ℕ) → IsLent cs es clock t result }
    {
        Lent {
            len: 0,
            end: 0,
            lender: None,
            lends: false,
        }
    }

    // Of packets of `len` bytes that start at `now` nobody was asked yet, and without a lender none lends.
    fn of(len: u32, now: u64, clock: &LinkClock) -> Lent
        requires free { clock.now.link.free ≤ now }
        requires early { now < 2 ^ 63 }
        ensures lent { (cs : List CbqClass) (es : List Estimate) → IsLent cs es clock.now now result }
        ensures len { result.len ≡ len }
    {
        Lent {
            len,
            end: clock.end_of(now, len),
            lender: None,
            lends: false,
        }
    }

    /// Keeps what is known of packets of `len` bytes, which start at `now`, no earlier than the last end and before 2^63. One division
    /// where the length is another.
    pub fn keep_of(&mut self, len: u32, now: u64, clock: &LinkClock)
        requires free { clock.now.link.free ≤ now }
        requires early { now < 2 ^ 63 }
        ensures lent { (cs : List CbqClass) (es : List Estimate) → IsLent cs es clock.now now self.old → IsLent cs es clock.now now self.new }
        ensures len { self.new.len ≡ len }
    {
        if self.len != len {
            *self = Lent::of(len, now, clock);
        }
    }
}
