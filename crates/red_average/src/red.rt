// The queue rule RED.
ghost use Rattle.std.specs.Prelude.{◌≡◌, ◌≤◌, ◌<◌, ◌-◌, ◌+◌, ◌*◌, ◌/◌, ◌^◌, ◌==◌, ◌↔◌, ℕ, ℤ, pos, negsuc, ◌≤ℤ◌, []};
ghost use Rattle.play_base.specs.Units.{time_of};
ghost use Rattle.leaf_queue.specs.Words.{word, Drew};
ghost use Rattle.red_average.specs.Average.{idle_steps, moved};
ghost use Rattle.red_average.specs.Ruling.{ruled, KeepsCount};
ghost use Rattle.red_average.specs.Exact.{IsNear};
ghost use Rattle.red_average.specs.Red.{thresholds, Represents};

use crate::average::{idle_step, moved};
use crate::ruling::{Thresholds, ruled};
use leaf_queue::{QueueRule, Reason, Verdict, Waiting, Words};

/// Some packets are dropped from an average of 5 packets on, all from one of 15.
const THRESHOLDS: Thresholds = Thresholds {
    low: 5 << 21,
    high: 15 << 21,
};

/// Random early detection (Floyd and Jacobson 1993). `average` is that of the waiting packets, in packets times 2^21, at most 2^54;
/// `count` the packets that were kept since the last drop, -1 where the average was below the lower threshold, at most 2^62;
/// `idle` the start of the packet that last left the queue empty, in nanoseconds; `step` the time of a step of the average while
/// nothing waits, at least 1 ns; `limit` the most packets that may wait.
#[derive(Clone, Copy)]
pub struct Red {
    pub average: u64,
    pub count: i64,
    pub idle: u64,
    pub step: u64,
    pub limit: u32,
    pub ghost small: { average ≤ 2 ^ 54 },
    pub ghost least: { negsuc 0 ≤ℤ count },
    pub ghost most: { count ≤ℤ pos (2 ^ 62) },
    pub ghost some: { 1 ≤ step },
}

impl Red {
    /// The rule of a queue that holds at most `limit` packets, 1 to 10,000, on a link of `rate` bits per second, 1,000 to 10^12.
    /// Nothing was offered to it. Does not allocate; constant time.
    pub fn new(limit: u32, rate: u64) -> Red
        requires { 1000 ≤ rate }
        ensures average { result.average ≡ 0 }
        ensures count { result.count ≡ negsuc 0 }
        ensures idle { result.idle ≡ 0 }
        ensures step { result.step ≡ time_of 1000 rate }
        ensures limit { result.limit ≡ limit }
        ensures history { Represents result.step result.limit result.average result.count result.idle [] }
    {
        Red {
            average: 0,
            count: -1,
            idle: 0,
            step: idle_step(rate),
            limit,
        }
    }

    /// The verdict on a packet that comes at `now`, in nanoseconds, where `q` wait. The average moves first, whatever the verdict
    /// is. The packet is dropped as `Full` exactly where `q` is the limit, else kept below the lower threshold, else dropped as
    /// `Forced` from the upper one on, and between them dropped as `Early` by the count and a random word, which is drawn only
    /// there. Does not allocate; its time does not grow with the idle time, as `moved` says.
    pub fn arrive(&mut self, q: u32, now: u64, words: &mut Words) -> Verdict
        requires { q ≤ self.old.limit }
        ensures average { self.new.average ≡ moved self.old.step self.old.idle now q self.old.average }
        ensures verdict { words.old.drawn < 2 ^ 64 - 1
            → result ≡ (ruled thresholds (q == self.old.limit) self.new.average self.old.count
            (word words.old.seed words.old.drawn)).ruling.verdict }
        ensures count { words.old.drawn < 2 ^ 64 - 1
            → self.new.count ≡ (ruled thresholds (q == self.old.limit) self.new.average self.old.count
            (word words.old.seed words.old.drawn)).ruling.count }
        ensures words { words.old.drawn < 2 ^ 64 - 1
            → Drew words.old words.new (ruled thresholds (q == self.old.limit) self.new.average self.old.count
            (word words.old.seed words.old.drawn)).took }
        ensures full { (result ≡ Verdict.Drop Reason.Full) ↔ (q ≡ self.old.limit) }
        ensures idle { self.new.idle ≡ self.old.idle }
        ensures step { self.new.step ≡ self.old.step }
        ensures limit { self.new.limit ≡ self.old.limit }
        ensures law_of_the_average { (n exact : ℕ) → IsNear n exact self.old.average → 0 < q
            → IsNear (n + 1) (511 * exact + 4096 * q * 512 ^ (n + 1)) self.new.average }
        ensures law_of_the_idle_average { (n exact : ℕ) → IsNear n exact self.old.average → q ≡ 0
            → IsNear (n + idle_steps self.old.step self.old.idle now) (511 ^ idle_steps self.old.step self.old.idle now * exact)
            self.new.average }
        ensures law_of_the_count { KeepsCount thresholds self.new.average self.old.count
            (record { verdict = result; count = self.new.count }) }
    {
        self.average = moved(self.average, self.step, self.idle, now, q);
        let ruling = ruled(THRESHOLDS, q == self.limit, self.average, self.count, words);
        self.count = ruling.count;
        ruling.verdict
    }
}

impl QueueRule for Red {
    ghost use Rattle.red_average.specs.Red.{red_says, Represents};

    ghost most = { λ r. r.limit };

    ghost stands = { λ r q. Represents r.step r.limit r.average r.count r.idle q };

    ghost says = { λ r. red_says r.step r.limit };

    fn limit(&self) -> u32 {
        self.limit
    }

    fn offer(&mut self, now: u64, waiting: Waiting, _prec: u8, words: &mut Words) -> Verdict {
        self.arrive(waiting.all, now, words)
    }

    fn left(&mut self, now: u64, _prec: u8, waiting: Waiting) {
        if waiting.all == 0 {
            self.idle = now;
        }
    }
}
