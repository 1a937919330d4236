// The queue rule RIO.
ghost use Rattle.std.specs.Prelude.{◌≡◌, ◌≢◌, ◌≤◌, ◌<◌, ◌-◌, ◌^◌, ◌==◌, ◌↔◌, ◌∷◌, [], ℕ, ℤ, pos, negsuc, ◌≤ℤ◌, EachIndex, slice_index, slice_index_or, slice_set};
ghost use Rattle.play_base.specs.Units.{time_of};
ghost use Rattle.leaf_queue.specs.Words.{word, Drew};
ghost use Rattle.red_average.specs.Ruling.{ruled};
ghost use Rattle.rio_precedence.specs.Precedence.{thresholds_of};
ghost use Rattle.rio_precedence.specs.Rio.{average_after, idle_after, Represents};

use crate::precedence::{seen, thresholds_of};
use leaf_queue::{QueueRule, Reason, Verdict, Waiting, Words};
use red_average::{idle_step, moved, ruled};

/// RED with three precedences (Clark and Fang 1998). At each place, for the packets of that precedence or a better one: `average` is
/// that of the waiting ones, in packets times 2^21, at most 2^54; `idle` the start of the one that last left none of them, in
/// nanoseconds. `count` at a place is the packets of that precedence alone that were kept since one was dropped, -1 where
/// the average was below its lower threshold, at most 2^62. `step` is the time of a step of an average while nothing waits, at
/// least 1 ns, and `limit` the most packets that may wait.
#[derive(Clone, Copy)]
pub struct Rio {
    pub average: [u64; 3],
    pub count: [i64; 3],
    pub idle: [u64; 3],
    pub step: u64,
    pub limit: u32,
    pub ghost small: { EachIndex average (λ j. slice_index average j ≤ 2 ^ 54) },
    pub ghost least: { EachIndex count (λ j. negsuc 0 ≤ℤ slice_index_or count j (pos 0)) },
    pub ghost most: { EachIndex count (λ j. slice_index_or count j (pos 0) ≤ℤ pos (2 ^ 62)) },
    pub ghost some: { 1 ≤ step },
}

impl Rio {
    /// The rule of a queue that holds at most `limit` packets, 1 to 10,000, on a link of `rate` bits per second, 1,000 to 10^12.
    /// Nothing was offered to it. Does not allocate; constant time.
    pub fn new(limit: u32, rate: u64) -> Rio
        requires { 1000 ≤ rate }
        ensures average { result.average ≡ 0 ∷ 0 ∷ 0 ∷ [] }
        ensures count { result.count ≡ negsuc 0 ∷ negsuc 0 ∷ negsuc 0 ∷ [] }
        ensures idle { result.idle ≡ 0 ∷ 0 ∷ 0 ∷ [] }
        ensures step { result.step ≡ time_of 1000 rate }
        ensures limit { result.limit ≡ limit }
        ensures history { Represents result.step result.limit result.average result.count result.idle [] }
    {
        Rio {
            average: [0; 3],
            count: [-1; 3],
            idle: [0; 3],
            step: idle_step(rate),
            limit,
        }
    }

    // The average of precedence `place` after a packet of precedence `prec` came.
    fn average_after(&self, place: u8, prec: u8, now: u64, waiting: Waiting) -> u64
        requires { place ≤ 2 }
        ensures value { result ≡ average_after self.now.step place prec now waiting (slice_index self.now.idle place)
            (slice_index self.now.average place) }
        ensures small { result ≤ 2 ^ 54 }
    {
        let average = self.average[place as usize];
        if place < prec {
            return average;
        }
        let idle = self.idle[place as usize];
        moved(average, self.step, idle, now, seen(place, waiting))
    }

    // The three averages after a packet of precedence `prec` came.
    fn averages_after(&self, prec: u8, now: u64, waiting: Waiting) -> [u64; 3]
        ensures value { (j : ℕ) → j ≤ 2 → slice_index result j
            ≡ average_after self.now.step j prec now waiting (slice_index self.now.idle j) (slice_index self.now.average j) }
        ensures small { EachIndex result (λ j. slice_index result j ≤ 2 ^ 54) }
    {
        [
            self.average_after(0, prec, now, waiting),
            self.average_after(1, prec, now, waiting),
            self.average_after(2, prec, now, waiting),
        ]
    }

    // The beginning of the idle time of precedence `place` after a packet of precedence `prec` left.
    fn idle_after(&self, place: u8, prec: u8, now: u64, waiting: Waiting) -> u64
        requires { place ≤ 2 }
        ensures { result ≡ idle_after place prec now waiting (slice_index self.now.idle place) }
    {
        if prec <= place && seen(place, waiting) == 0 {
            return now;
        }
        self.idle[place as usize]
    }

    /// The verdict on a packet of precedence `prec` that comes at `now`, in nanoseconds, where `waiting` says how many wait. The
    /// averages of its precedence and of the worse ones move first, whatever the verdict is. The packet is dropped as `Full` exactly
    /// where `waiting.all` is the limit; else as RED does by the average, the count and the thresholds of its own precedence. Takes
    /// no memory; its time does not grow with the idle time, as `red_average::moved` says.
    pub fn arrive(&mut self, waiting: Waiting, prec: u8, now: u64, words: &mut Words) -> Verdict
        requires room { waiting.all ≤ self.old.limit }
        requires prec { prec ≤ 2 }
        ensures average { (j : ℕ) → j ≤ 2 → slice_index self.new.average j
            ≡ average_after self.old.step j prec now waiting (slice_index self.old.idle j) (slice_index self.old.average j) }
        ensures verdict { words.old.drawn < 2 ^ 64 - 1
            → result ≡ (ruled (thresholds_of prec) (waiting.all == self.old.limit) (slice_index self.new.average prec)
            (slice_index_or self.old.count prec (pos 0)) (word words.old.seed words.old.drawn)).ruling.verdict }
        ensures count { words.old.drawn < 2 ^ 64 - 1
            → self.new.count ≡ slice_set self.old.count prec
            (ruled (thresholds_of prec) (waiting.all == self.old.limit) (slice_index self.new.average prec)
            (slice_index_or self.old.count prec (pos 0)) (word words.old.seed words.old.drawn)).ruling.count }
        ensures words { words.old.drawn < 2 ^ 64 - 1
            → Drew words.old words.new (ruled (thresholds_of prec) (waiting.all == self.old.limit) (slice_index self.new.average prec)
            (slice_index_or self.old.count prec (pos 0)) (word words.old.seed words.old.drawn)).took }
        ensures full { (result ≡ Verdict.Drop Reason.Full) ↔ (waiting.all ≡ self.old.limit) }
        ensures idle { self.new.idle ≡ self.old.idle }
        ensures step { self.new.step ≡ self.old.step }
        ensures limit { self.new.limit ≡ self.old.limit }
    {
        self.average = self.averages_after(prec, now, waiting);
        let full = waiting.all == self.limit;
        let ruling = ruled(
            thresholds_of(prec),
            full,
            self.average[prec as usize],
            self.count[prec as usize],
            words,
        );
        self.count[prec as usize] = ruling.count;
        ruling.verdict
    }
}

impl QueueRule for Rio {
    ghost use Rattle.rio_precedence.specs.Rio.{rio_says, Represents};

    ghost most = { λ r. r.limit };

    ghost stands = { λ r q. Represents r.step r.limit r.average r.count r.idle q };

    ghost says = { λ r. rio_says r.step r.limit };

    fn limit(&self) -> u32 {
        self.limit
    }

    fn offer(&mut self, now: u64, waiting: Waiting, prec: u8, words: &mut Words) -> Verdict {
        self.arrive(waiting, prec, now, words)
    }

    fn left(&mut self, now: u64, prec: u8, waiting: Waiting) {
        self.idle = [
            self.idle_after(0, prec, now, waiting),
            self.idle_after(1, prec, now, waiting),
            self.idle_after(2, prec, now, waiting),
        ];
    }
}
