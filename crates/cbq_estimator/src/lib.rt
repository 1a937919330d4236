//! How far a class of CBQ is from its rate, and when it may send next.
//!
//! An estimator keeps a moving average of the idle times between the packets of a class and of the classes below it: the
//! time since the end before, less the packet's own time at the class's rate. While the average is above 0 the class may
//! send at once; else it waits until the idle time makes up for it. The average never passes that of a burst, so a class
//! that was idle for long may send no more than that burst ahead. After Floyd and Jacobson 1995.
#![tactic(auto)]

ghost use Rattle.std.specs.Prelude.{◌≡◌, ◌<◌, ◌≤◌, ◌+◌, ◌*◌, ◌^◌, ◌-◌, ℤ, pos, negsuc, ◌≤ℤ◌, ◌+ℤ◌, ◌-ℤ◌, ◌∷◌, [], List, unwrap_or, unsigned_abs, int_le};
ghost use Rattle.std.specs.Int.{int_min};
ghost use Rattle.play_base.specs.Units.{time_of};
ghost use Rattle.altq_model.specs.Link.{end_of};
ghost use Rattle.cbq_estimator.specs.Average.{Ended, cap_of, decayed, average};
ghost use Rattle.cbq_estimator.specs.Starts.{allows, enough, wanted, IsLeastStart};
ghost use Rattle.cbq_estimator.specs.Estimate.{Estimate, Represents};
ghost use Rattle.cbq_estimator.specs.Now.{after_end, allows_now, idle_now, start_now, wanted_now};

mod laws;
mod rows;

pub use laws::{
    allowed_packets_keep_the_rate, answers_are_those_of_the_history, least_starts_are_told,
};
use link_clock::LinkClock;
use play_base::time_of;
pub use rows::worked_examples;
use std::marker::Model;

// The units of a byte: a rate of R bits per second carries R·t units in t nanoseconds.
const BYTE: u64 = 8_000_000_000;

/// The average idle time of a class, which contracts see with the class's pace and the last end. It stands for the list of
/// the ends that it was told of.
#[derive(Drop)]
pub struct Estimator {
    rate: u64,
    cap: u64,
    average: i64,
    last: Option<u64>,
}

impl Model for Estimator {
    ghost use Rattle.cbq_estimator.specs.Estimate.{Estimate, IsBounded};

    ghost Value = { Estimate };

    ghost view = { λ e. record {
      pace = record { rate = e.rate; cap = e.cap };
      average = e.average;
      last = e.last;
    } };

    ghost invariant = { λ e. IsBounded e.rate e.cap e.average e.last };
}

// The time that a packet takes at a class's rate. Its units fit 64 bits, so a division of 64 bits will do.
fn own_time(len: u32, rate: u64) -> u64
    requires short { len ≤ 262144 }
    requires least { 1000 ≤ rate }
    requires most { rate ≤ 10 ^ 12 }
    ensures { result ≡ time_of len rate }
{
    (u64::from(len) * BYTE + (rate - 1)) / rate
}

// An average less 1/32 of it, rounded towards zero.
fn decayed(average: i64) -> i64
    requires least { negsuc (2 ^ 46 - 1) ≤ℤ average }
    requires most { average ≤ℤ pos (2 ^ 51) }
    ensures value { result ≡ decayed average }
    ensures least { negsuc (31 * 2 ^ 41 - 1) ≤ℤ result }
    ensures most { result ≤ℤ pos (2 ^ 51) }
{
    average - average / 32
}

// The idle time between two ends, of which a packet takes its own time.
fn idle_time(last: u64, end: u64, own: u64) -> i128
    requires in_order { last ≤ end }
    requires short { own ≤ 2 ^ 41 }
    ensures value { result ≡ (pos end -ℤ pos last) -ℤ pos own }
    ensures least { negsuc (2 ^ 41 - 1) ≤ℤ result }
    ensures most { result ≤ℤ pos (2 ^ 64) }
{
    i128::from(end - last) - i128::from(own)
}

// The decayed average plus the idle time, at most the cap.
fn sum_below(cap: u64, decayed: i64, idle: i128) -> i64
    requires cap { cap ≤ 2 ^ 51 }
    requires least { negsuc (31 * 2 ^ 41 - 1) ≤ℤ decayed }
    requires most { decayed ≤ℤ pos (2 ^ 51) }
    requires idle { negsuc (2 ^ 41 - 1) ≤ℤ idle }
    requires late { idle ≤ℤ pos (2 ^ 64) }
    ensures value { result ≡ int_min (pos cap) (decayed +ℤ idle) }
    ensures least { negsuc (2 ^ 46 - 1) ≤ℤ result }
    ensures most { result ≤ℤ pos cap }
{
    let sum = i128::from(decayed) + idle;
    if sum < i128::from(cap) {
        sum as i64
    } else {
        cap as i64
    }
}

// The idle time that brings an average of 0 or less back to 0 or above.
fn enough(average: i64) -> u64
    requires { unsigned_abs average ≤ 2 ^ 51 }
    ensures { result ≡ enough average }
{
    (31 * average.unsigned_abs() + 31) / 32
}

impl Estimator {
    /// An estimator of a class of `rate` bits per second, 1,000 to 10^12, which may send `maxburst` packets, 1 to 1,000, of
    /// `packetsize` bytes, 1 to 262,144, in a burst, and has sent none. Does not allocate.
    pub fn new(rate: u64, maxburst: u32, packetsize: u32) -> Estimator
        requires least { 1000 ≤ rate }
        requires most { rate ≤ 10 ^ 12 }
        requires some_packets { 1 ≤ maxburst }
        requires few_packets { maxburst ≤ 1000 }
        requires some_bytes { 1 ≤ packetsize }
        requires few_bytes { packetsize ≤ 262144 }
        ensures pace { result.pace ≡ record { rate = rate; cap = cap_of rate maxburst packetsize } }
        ensures average { result.average ≡ pos (cap_of rate maxburst packetsize) }
        ensures last { result.last ≡ None }
        ensures history { Represents result [] }
    {
        let cap = u64::from(maxburst) * time_of(u64::from(packetsize), rate);
        Estimator {
            rate,
            cap,
            average: cap as i64,
            last: None,
        }
    }

    // The end from which on a packet would be allowed at an average of 0 or less if it took no time.
    fn earliest(&self) -> u64
        ensures value { result ≡ unwrap_or self.now.last 0 + enough self.now.average }
        ensures bound { result < 2 ^ 63 + 2 ^ 62 + 2 ^ 52 }
    {
        self.last.unwrap_or(0) + enough(self.average)
    }

    // The end from which on a packet is allowed at an average of 0 or less.
    fn wanted(&self, len: u32) -> u64
        requires { len ≤ 262144 }
        ensures value { result ≡ wanted_now self.now len }
        ensures history { (h : List Ended) → Represents self.now h → result ≡ wanted self.now.pace h len }
    {
        self.earliest() + own_time(len, self.rate)
    }

    /// 32 times the average idle time, in nanoseconds.
    pub fn average(&self) -> i64
        ensures value { result ≡ self.now.average }
        ensures history { (h : List Ended) → Represents self.now h → result ≡ average self.now.pace h }
    {
        self.average
    }

    /// The least moment from `now` on, in nanoseconds, at which a packet of `len` bytes may start on the clock's link: no
    /// earlier than the link's last end, and before 2^63. A packet that starts at the last end goes on with the link's run
    /// and may end 1 ns earlier than by its own time, so the answer is computed from the clock's own ends. Constant time; takes
    /// no memory.
    pub fn start(&self, now: u64, len: u32, clock: &LinkClock) -> u64
        requires free { clock.now.link.free ≤ now }
        requires early { now < 2 ^ 63 }
        requires some_bytes { 1 ≤ len }
        requires few_bytes { len ≤ 262144 }
        ensures value { result ≡ start_now self.now clock.now.rate clock.now.link now len }
        ensures history { (h : List Ended) → Represents self.now h
            → IsLeastStart self.now.pace h clock.now.rate clock.now.link now len result }
    {
        if self.average > 0 {
            return now;
        }
        let wanted = self.wanted(len);
        if clock.end_of(now, len) >= wanted {
            return now;
        }
        let later = now + 1;
        later + wanted.saturating_sub(clock.end_of(later, len))
    }

    // Whether the idle time of a packet that would end at `end` is enough at an average of 0 or less. It compares units, which needs no
    // division.
    fn is_late(&self, end: u64, len: u32) -> bool
        ensures { result ≡ int_le (pos (enough self.now.average)) (idle_now self.now end len) }
    {
        let least = self.earliest();
        let units = u128::from(len) * u128::from(BYTE);
        end >= least && u128::from(end - least) * u128::from(self.rate) >= units
    }

    /// Whether a packet of `len` bytes that would end at `end`, in nanoseconds, is allowed. Constant time, without a division; takes no
    /// memory.
    pub fn allows(&self, end: u64, len: u32) -> bool
        ensures value { result ≡ allows_now self.now end len }
        ensures history { (h : List Ended) → Represents self.now h → result ≡ allows self.now.pace h end len }
    {
        self.average > 0 || self.is_late(end, len)
    }

    /// A packet of `len` bytes, of the class or of a class below it, ended at `end`: no earlier than the end before, and before
    /// 2^63 + 2^62 nanoseconds. Constant time; does not allocate.
    pub fn ended(&mut self, end: u64, len: u32)
        requires in_order { unwrap_or self.old.last 0 ≤ end }
        requires early { end < 2 ^ 63 + 2 ^ 62 }
        requires some_bytes { 1 ≤ len }
        requires few_bytes { len ≤ 262144 }
        ensures value { self.new ≡ after_end self.old (record { end = end; len = len }) }
        ensures pace { self.new.pace ≡ self.old.pace }
        ensures last { self.new.last ≡ Some end }
        ensures history { (h : List Ended) → Represents self.old h → Represents self.new (record { end = end; len = len } ∷ h) }
    {
        if let Some(last) = self.last {
            let idle = idle_time(last, end, own_time(len, self.rate));
            self.average = sum_below(self.cap, decayed(self.average), idle);
        }
        self.last = Some(end);
    }
}
