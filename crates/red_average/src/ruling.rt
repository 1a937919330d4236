// What follows from an average: whether a packet is kept, and the count of packets that were kept since the last drop.
ghost use Rattle.std.specs.Prelude.{◌≡◌, ◌≤◌, ◌<◌, ◌-◌, ◌+◌, ◌^◌, ◌↔◌, ℕ, IsTrue, ℤ, pos, negsuc, ◌≤ℤ◌};
ghost use Rattle.leaf_queue.specs.Words.{word, Drew};
ghost use Rattle.red_average.specs.Ruling.{ruled, between, KeepsCount};

use crate::share::{drops_by_chance, next_count, spacing_left};
use leaf_queue::{Reason, Verdict, Words};

/// The averages from which on packets are dropped, in packets times 2^21: from `low` on some are, from `high` on all.
#[derive(Clone, Copy)]
pub struct Thresholds {
    pub low: u64,
    pub high: u64,
}

/// The verdict on a packet, and the count of kept packets after it: -1 where the average is below the lower threshold.
#[derive(Clone, Copy)]
pub struct Ruling {
    pub verdict: Verdict,
    pub count: i64,
}

// A drop begins the count anew.
fn dropped(reason: Reason) -> Ruling
    ensures { result ≡ record { verdict = Verdict.Drop reason; count = pos 0 } }
{
    Ruling {
        verdict: Verdict::Drop(reason),
        count: 0,
    }
}

// What follows from an average between the thresholds.
fn between(thresholds: Thresholds, average: u64, count: i64, words: &mut Words) -> Ruling
    requires low { thresholds.low ≤ average }
    requires high { average ≤ thresholds.high }
    requires small { thresholds.high ≤ 2 ^ 54 }
    requires least { negsuc 0 ≤ℤ count }
    requires most { count ≤ℤ pos (2 ^ 62) }
    ensures ruling { words.old.drawn < 2 ^ 64 - 1
        → result ≡ (between thresholds average count (word words.old.seed words.old.drawn)).ruling }
    ensures words { words.old.drawn < 2 ^ 64 - 1
        → Drew words.old words.new (between thresholds average count (word words.old.seed words.old.drawn)).took }
    ensures not_full { (result.verdict ≡ Verdict.Drop Reason.Full) → ⊥ }
    ensures least { negsuc 0 ≤ℤ result.count }
    ensures most { result.count ≤ℤ pos (2 ^ 62) }
    ensures law { KeepsCount thresholds average count result }
{
    let count = next_count(count);
    let over = average - thresholds.low;
    let spacing_left = spacing_left(thresholds.high - thresholds.low, count, over);
    if spacing_left == 0 {
        return dropped(Reason::Early);
    }
    if drops_by_chance(words.next(), spacing_left, over) {
        return dropped(Reason::Early);
    }
    Ruling {
        verdict: Verdict::Keep,
        count: count as i64,
    }
}

/// The verdict on a packet, and the count after it: `full` says that its queue has no room, `average` is the average that it
/// brought about, and `count`, -1 to 2^62, the count before it. A random word is drawn only where the average is between the
/// thresholds and the count has not used up the spacing of drops. Constant time.
pub fn ruled(
    thresholds: Thresholds,
    full: bool,
    average: u64,
    count: i64,
    words: &mut Words,
) -> Ruling
    requires small { thresholds.high ≤ 2 ^ 54 }
    requires least { negsuc 0 ≤ℤ count }
    requires most { count ≤ℤ pos (2 ^ 62) }
    ensures ruling { words.old.drawn < 2 ^ 64 - 1
        → result ≡ (ruled thresholds full average count (word words.old.seed words.old.drawn)).ruling }
    ensures words { words.old.drawn < 2 ^ 64 - 1
        → Drew words.old words.new (ruled thresholds full average count (word words.old.seed words.old.drawn)).took }
    ensures full { (result.verdict ≡ Verdict.Drop Reason.Full) ↔ IsTrue full }
    ensures least { negsuc 0 ≤ℤ result.count }
    ensures most { result.count ≤ℤ pos (2 ^ 62) }
    ensures law { KeepsCount thresholds average count result }
{
    if full {
        return dropped(Reason::Full);
    }
    if average < thresholds.low {
        return Ruling {
            verdict: Verdict::Keep,
            count: -1,
        };
    }
    if average >= thresholds.high {
        return dropped(Reason::Forced);
    }
    between(thresholds, average, count, words)
}
