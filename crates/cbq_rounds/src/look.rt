// A look at the classes that wait.
ghost use Rattle.std.specs.Prelude.{◌≡◌, ◌≤◌, ◌<◌, ◌^◌, ℕ, [], length, None, Some};
ghost use Rattle.altq_model.specs.Play.{lesser};
ghost use Rattle.class_rows.specs.Rows.{list_in};
ghost use Rattle.cbq_model.specs.Choice.{able, best};
ghost use Rattle.cbq_rounds.specs.Due.{first_in};
ghost use Rattle.cbq_sharing.specs.Held.{AreAwake};
ghost use Rattle.cbq_sharing.specs.Rings.{AreRings};
ghost use Rattle.cbq_sharing.specs.Shared.{situation_in};
ghost use Rattle.cbq_sharing.specs.Waiting.{AreSized, AreWaiting};

use crate::able::first_able;
use cbq_model::Rank;
use cbq_sharing::{Rings, Shares};
use class_rows::ClassQueues;
use class_sets::ClassSet;
use leaf_queue::QueueRule;
use link_clock::LinkClock;

/// The least moment at which a class that waits may send, and the rank of the first of those that may send now.
#[derive(Clone, Copy)]
pub struct Found {
    pub till: Option<u64>,
    pub best: Option<Rank>,
}

// The earlier of two moments.
fn earlier(till: Option<u64>, start: u64) -> u64
    ensures { lesser till (Some start) ≡ Some result }
{
    match till {
        None => start,
        Some(t) => t.min(start),
    }
}

// The least moment from `now` on at which a class that waits may send.
fn first_moment<Q: QueueRule + Drop>(
    shares: &Shares,
    rows: &ClassQueues<Q>,
    waiting: &ClassSet,
    now: u64,
    clock: &LinkClock,
) -> Option<u64>
    requires first { rows.now.first ≡ 0 }
    requires count { length rows.now.queues ≡ length shares.now.tree }
    requires few { length shares.now.tree ≤ 256 }
    requires sized { (c : ℕ) → AreSized (list_in rows.now c) }
    requires waiting { AreWaiting waiting.now (list_in rows.now) }
    requires others { (c : ℕ) → length shares.now.tree ≤ c → list_in rows.now c ≡ [] }
    requires free { clock.now.link.free ≤ now }
    requires early { now < 2 ^ 63 }
    ensures { result ≡ first_in shares.now (list_in rows.now) clock.now now }
{
    let mut till = None;
    let mut from = 0;
    'classes: while let Some(class) = waiting.first_from(from) {
        from = class + 1;
        let Some(head) = rows.head(class) else {
            continue;
        };
        let start = shares.start_of(class, head.len, now, clock);
        till = Some(earlier(till, start));
    }
    till
}

/// Asks who of those that are awake may send now, and only where nobody may computes the moments of all that wait.
pub fn look<Q: QueueRule + Drop>(
    shares: &Shares,
    rows: &ClassQueues<Q>,
    waiting: &ClassSet,
    awake: &ClassSet,
    rings: &Rings,
    now: u64,
    clock: &LinkClock,
    refused: &mut ClassSet,
) -> Found
    requires first { rows.now.first ≡ 0 }
    requires count { length rows.now.queues ≡ length shares.now.tree }
    requires few { length shares.now.tree ≤ 256 }
    requires sized { (c : ℕ) → AreSized (list_in rows.now c) }
    requires waiting { AreWaiting waiting.now (list_in rows.now) }
    requires awake { AreAwake shares.now (list_in rows.now) clock.now now awake.now }
    requires rings { AreRings shares.now.tree rings.now.sets.items rings.now.tops.items }
    requires others { (c : ℕ) → length shares.now.tree ≤ c → list_in rows.now c ≡ [] }
    requires free { clock.now.link.free ≤ now }
    requires early { now < 2 ^ 63 }
    requires rate { clock.now.rate ≡ shares.now.rate }
    ensures till { result.till ≡ first_in shares.now (list_in rows.now) clock.now now }
    ensures best { result.best ≡ best shares.now.tree shares.now.rate (situation_in shares.now (list_in rows.now) clock.now.link) None
        (able shares.now.tree shares.now.rate (situation_in shares.now (list_in rows.now) clock.now.link) now) }
{
    let best = first_able(shares, rows, awake, rings, now, clock, refused);
    if best.is_some() {
        return Found {
            till: Some(now),
            best,
        };
    }
    let till = first_moment(shares, rows, waiting, now, clock);
    Found { till, best }
}
