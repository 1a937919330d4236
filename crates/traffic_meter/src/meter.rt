// A meter: two buckets, and the colour of each packet.
ghost use Rattle.std.specs.Prelude.{◌≡◌, ◌≤◌, ◌-◌, ◌*◌, ◌^◌, ◌∷◌, [], List};
ghost use Rattle.play_base.specs.Units.{units};
ghost use Rattle.traffic_meter.specs.Buckets.{filled, full, judged, paid};
ghost use Rattle.traffic_meter.specs.History.{Metered, Represents, after, colour_after, colour_of};

use crate::rule::{Colour, MeterRule};
use play_base::units;
use std::marker::Model;

/// A meter of one class's packets: the buckets of its rule, full at first, as of the last packet. Contracts see its rule and its
/// buckets, which stand for the history of the packets that it was asked for.
#[derive(Drop)]
pub struct Meter {
    rule: MeterRule,
    moment: u64,
    committed: u128,
    other: u128,
}

impl Model for Meter {
    ghost use Rattle.std.specs.Prelude.{◌≤◌};
    ghost use Rattle.play_base.specs.Units.{units};
    ghost use Rattle.traffic_meter.specs.Buckets.{committed_burst, other_burst};
    ghost use Rattle.traffic_meter.specs.History.{Metering};

    ghost Value = { Metering };

    ghost view = { λ m. record {
      rule = m.rule;
      buckets = record { moment = m.moment; committed = m.committed; other = m.other };
    } };

    ghost invariant = { λ m. (m.committed ≤ units (committed_burst m.rule)) × (m.other ≤ units (other_burst m.rule)) };
}

// The units that a rate gives in a time. They fit, and so does their sum with a bucket's.
fn given(rate: u64, gap: u64) -> u128
    ensures value { result ≡ rate * gap }
    ensures fits { result ≤ (2 ^ 64 - 1) * (2 ^ 64 - 1) }
{
    u128::from(rate) * u128::from(gap)
}

impl Meter {
    /// A meter of a rule, with full buckets, that was asked for no packet. Does not allocate; constant time.
    pub fn new(rule: &MeterRule) -> Meter
        ensures rule { result.rule ≡ rule.now }
        ensures buckets { result.buckets ≡ full rule.now }
        ensures history { Represents result [] }
    {
        let (cbs, other) = match *rule {
            MeterRule::Single { cbs, ebs, .. } => (cbs, ebs),
            MeterRule::Two { cbs, pbs, .. } => (cbs, pbs),
        };
        Meter {
            rule: *rule,
            moment: 0,
            committed: units(u64::from(cbs)),
            other: units(u64::from(other)),
        }
    }

    /// The rule of the meter, which no call changes. Constant time; does not allocate.
    pub fn rule(&self) -> &MeterRule
        ensures { result.now ≡ self.now.rule }
    {
        &self.rule
    }

    // Fills the buckets up to a moment.
    fn fill(&mut self, moment: u64)
        requires { self.old.buckets.moment ≤ moment }
        ensures rule { self.new.rule ≡ self.old.rule }
        ensures buckets { self.new.buckets ≡ filled self.old.rule self.old.buckets moment }
        ensures moment { self.new.buckets.moment ≡ moment }
    {
        let gap = moment - self.moment;
        self.moment = moment;
        match self.rule {
            MeterRule::Single { cir, cbs, ebs, .. } => {
                let full = units(u64::from(cbs));
                let held = self.committed + given(cir, gap);
                self.committed = held.min(full);
                self.other = (self.other + held.saturating_sub(full)).min(units(u64::from(ebs)));
            }
            MeterRule::Two {
                pir,
                pbs,
                cir,
                cbs,
                ..
            } => {
                self.committed = (self.committed + given(cir, gap)).min(units(u64::from(cbs)));
                self.other = (self.other + given(pir, gap)).min(units(u64::from(pbs)));
            }
        }
    }

    // The colour that what the buckets hold gives to a packet of some units.
    fn judge(&self, amount: u128) -> Colour
        ensures { result ≡ judged self.now.rule self.now.buckets amount }
    {
        let commits = amount <= self.committed;
        let other = amount <= self.other;
        match self.rule {
            MeterRule::Single { .. } if commits => Colour::Green,
            MeterRule::Single { .. } if other => Colour::Yellow,
            MeterRule::Two { .. } if other && commits => Colour::Green,
            MeterRule::Two { .. } if other => Colour::Yellow,
            _ => Colour::Red,
        }
    }

    // Takes from the buckets what a packet of that colour pays.
    fn pay(&mut self, colour: Colour, amount: u128)
        requires { colour ≡ judged self.old.rule self.old.buckets amount }
        ensures rule { self.new.rule ≡ self.old.rule }
        ensures buckets { self.new.buckets ≡ paid self.old.rule colour self.old.buckets amount }
        ensures moment { self.new.buckets.moment ≡ self.old.buckets.moment }
    {
        match (colour, self.rule) {
            (Colour::Red, _) => {}
            (Colour::Yellow, _) => self.other -= amount,
            (Colour::Green, MeterRule::Single { .. }) => self.committed -= amount,
            (Colour::Green, MeterRule::Two { .. }) => {
                self.committed -= amount;
                self.other -= amount;
            }
        }
    }

    /// The colour of a packet of `len` bytes that arrives at `moment`, in nanoseconds, not before the packet before. Two packets may
    /// arrive at one moment. Each length and each moment has an answer. Constant time; does not allocate.
    pub fn colour(&mut self, moment: u64, len: u32) -> Colour
        requires in_order { self.old.buckets.moment ≤ moment }
        ensures rule { self.new.rule ≡ self.old.rule }
        ensures colour { result ≡ colour_of self.old.rule self.old.buckets (record { moment = moment; len = len }) }
        ensures buckets { self.new.buckets ≡ after self.old.rule self.old.buckets (record { moment = moment; len = len }) }
        ensures moment { self.new.buckets.moment ≡ moment }
        ensures history_colour { (h : List Metered) → Represents self.old h
            → result ≡ colour_after self.old.rule h (record { moment = moment; len = len }) }
        ensures history { (h : List Metered) → Represents self.old h
            → Represents self.new (record { moment = moment; len = len } ∷ h) }
    {
        self.fill(moment);
        let amount = units(u64::from(len));
        let colour = self.judge(amount);
        self.pay(colour, amount);
        colour
    }
}
