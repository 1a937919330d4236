// The average of RED over arrivals.

use case_bytes::number;
use leaf_queue::{QueueRule, Waiting, Words};
use red_average::Red;

// The most packets that a queue may hold.
const MOST: u32 = 10_000;

// The rates of a link.
const SLOWEST: u64 = 1_000;

const FASTEST: u64 = 1_000_000_000_000;

// Tells RED of an event: its moment, and the number of packets that an arrival found waiting, or `empty` where the last packet left. No
// average rests on the words by which packets are dropped.
fn happen(red: &mut Red, at: &str, what: &str) -> Option<()> {
    let at = number(at)?;
    if what == "empty" {
        let none = Waiting {
            best: 0,
            middle: 0,
            all: 0,
        };
        red.left(at, 0, none);
        return Some(());
    }
    let waiting = u32::try_from(number(what)?).ok()?;
    if waiting > red.limit {
        return None;
    }
    let _ = red.arrive(waiting, at, &mut Words::new(0));
    Some(())
}

// Tells RED of events, each of two words.
fn happen_all(red: &mut Red, events: &[&str]) -> Option<()> {
    let mut left = events;
    while let [at, what, rest @ ..] = left {
        happen(red, at, what)?;
        left = rest;
    }
    if left.is_empty() { Some(()) } else { None }
}

/// RED's average, in packets times 2^21, after what happened in a queue of a link of the rate that the first of these words says.
pub fn average(words: &[&str]) -> Option<Option<u128>> {
    let (rate, happened) = words.split_first()?;
    let rate = number(rate)?;
    if rate < SLOWEST || FASTEST < rate {
        return None;
    }
    let mut red = Red::new(MOST, rate);
    happen_all(&mut red, happened)?;
    Some(Some(u128::from(red.average)))
}
