//! The clock of a link, which sends one packet at a time and carries the fraction of a nanosecond within a run.
//!
//! A run is a longest sequence of sendings in which each starts at the end of the one before it. In a run that began at r,
//! the end of a sending is r + ceil(U / rate), U being the units of the run's packets up to and with it. So a run never
//! loses or gains time by rounding, whatever its length.
#![tactic(auto)]

ghost use Rattle.std.specs.Prelude.{◌≡◌, ◌+◌, ◌*◌, ◌/◌, ◌<◌, ◌≤◌, ◌^◌};
ghost use Rattle.play_base.specs.Units.{units, ceil_div};
ghost use Rattle.altq_model.specs.Link.{after_sending, end_of, idle_link};
ghost use Rattle.link_clock.specs.Clock.{Clock, IsRunning};

use quotients::{inverse, quotient};
use std::marker::Model;

/// The units of a byte: a rate of R bits per second carries R·t units in t nanoseconds.
const BYTE: u128 = 8_000_000_000;

/// The clock of a link of one rate. Contracts see its rate in bits per second and, as `link`, the last end and the run that
/// ended there.
#[derive(Drop)]
pub struct LinkClock {
    rate: u64,
    // Quotients by the rate are guessed by it.
    inverse: u64,
    free: u64,
    run: u64,
    sent: u128,
}

impl Model for LinkClock {
    ghost Value = { Clock };

    ghost view = { λ c. record {
      rate = c.rate;
      link = record { free = c.free; run = c.run; sent = c.sent };
    } };

    ghost invariant = { λ c. IsRunning c.rate c.free c.run c.sent };
}

// The end of a run that began at `run`, with `sent` units up to it. Most runs are short enough for a quotient of 64 bits, which a product
// guesses.
#[inline(always)]
fn run_end(rate: u64, inverse: u64, run: u64, sent: u128) -> u64
    requires rate { 0 < rate }
    requires fits { run + ceil_div sent rate < 2 ^ 64 }
    requires small { sent + rate < 2 ^ 128 }
    ensures { result ≡ run + ceil_div sent rate }
{
    let amount = sent + u128::from(rate - 1);
    let time = if amount <= u128::from(u64::MAX) {
        quotient(amount as u64, rate, inverse)
    } else {
        (amount / u128::from(rate)) as u64
    };
    run + time
}

impl LinkClock {
    /// A link of `rate` bits per second, 1,000 to 10^12, that has sent nothing. Does not allocate.
    pub fn new(rate: u64) -> LinkClock
        requires least { 1000 ≤ rate }
        requires most { rate ≤ 10 ^ 12 }
        ensures { result ≡ record { rate = rate; link = idle_link } }
    {
        LinkClock {
            rate,
            inverse: inverse(rate),
            free: 0,
            run: 0,
            sent: 0,
        }
    }

    /// The last end in nanoseconds, 0 at first.
    pub fn free(&self) -> u64
        ensures { result ≡ self.now.link.free }
    {
        self.free
    }

    /// The end, in nanoseconds, of a packet of `len` bytes that starts at `now`: no earlier than the last end, and no later
    /// than 2^63. One division where a run is longer than 2^64 units or the guess fails; does not allocate.
    pub fn end_of(&self, now: u64, len: u32) -> u64
        requires free { self.now.link.free ≤ now }
        requires early { now ≤ 2 ^ 63 }
        ensures end { result ≡ end_of self.now.rate self.now.link now len }
        ensures bound { result < 2 ^ 63 + 2 ^ 62 }
    {
        let more = u128::from(len) * BYTE;
        if now == self.free {
            run_end(self.rate, self.inverse, self.run, self.sent + more)
        } else {
            run_end(self.rate, self.inverse, now, more)
        }
    }

    /// Sends a packet of `len` bytes at `now`, and answers its end, as `end_of` would.
    pub fn send(&mut self, now: u64, len: u32) -> u64
        requires free { self.old.link.free ≤ now }
        requires early { now < 2 ^ 63 }
        ensures end { result ≡ end_of self.old.rate self.old.link now len }
        ensures bound { result < 2 ^ 63 + 2 ^ 62 }
        ensures rate { self.new.rate ≡ self.old.rate }
        ensures link { self.new.link ≡ after_sending self.old.rate self.old.link now len }
    {
        let end = self.end_of(now, len);
        self.sent(now, len, end);
        end
    }

    /// Tells it of a packet of `len` bytes that was sent at `now` and has this end, which is that of `end_of`. No division;
    /// does not allocate.
    pub fn sent(&mut self, now: u64, len: u32, end: u64)
        requires free { self.old.link.free ≤ now }
        requires early { now < 2 ^ 63 }
        requires end { end ≡ end_of self.old.rate self.old.link now len }
        ensures rate { self.new.rate ≡ self.old.rate }
        ensures link { self.new.link ≡ after_sending self.old.rate self.old.link now len }
    {
        if now == self.free {
            self.sent += u128::from(len) * BYTE;
        } else {
            self.run = now;
            self.sent = u128::from(len) * BYTE;
        }
        self.free = end;
    }
}
