// The first of the classes that may send now.
ghost use Rattle.std.specs.Prelude.{◌≡◌, ◌≤◌, ◌<◌, ◌^◌, ℕ, [], length, get_or, None, Some, if◌then◌else◌};
ghost use Rattle.class_rows.specs.Rows.{list_in};
ghost use Rattle.cbq_model.specs.Choice.{able, best, better};
ghost use Rattle.cbq_rounds.specs.Looked.{HasAsked};
ghost use Rattle.cbq_sharing.specs.Held.{AreAwake};
ghost use Rattle.cbq_sharing.specs.Rings.{AreRings};
ghost use Rattle.cbq_sharing.specs.Shared.{situation_in};
ghost use Rattle.cbq_sharing.specs.Waiting.{AreSized};

use cbq_model::Rank;
use cbq_sharing::{Lent, Rings, Shares};
use class_rows::ClassQueues;
use class_sets::ClassSet;
use leaf_queue::QueueRule;
use link_clock::LinkClock;

// Whether a class goes before the first one so far.
fn leads(best: Option<Rank>, rank: Rank) -> bool
    ensures { better best rank ≡ (if result then Some rank else best) }
{
    match best {
        None => true,
        Some(b) => rank.goes_before(b),
    }
}

// The first of the classes of one priority that may send now, where none of a greater priority may. It asks those that are awake, and
// puts those that may not and have no lender into `refused`.
fn able_at<Q: QueueRule + Drop>(
    shares: &Shares,
    rows: &ClassQueues<Q>,
    awake: &ClassSet,
    rings: &Rings,
    priority: u8,
    now: u64,
    clock: &LinkClock,
    refused: &mut ClassSet,
) -> Option<Rank>
    requires first { rows.now.first ≡ 0 }
    requires count { length rows.now.queues ≡ length shares.now.tree }
    requires few { length shares.now.tree ≤ 256 }
    requires sized { (c : ℕ) → AreSized (list_in rows.now c) }
    requires awake { AreAwake shares.now (list_in rows.now) clock.now now awake.now }
    requires rings { AreRings shares.now.tree rings.now.sets.items rings.now.tops.items }
    requires others { (c : ℕ) → length shares.now.tree ≤ c → list_in rows.now c ≡ [] }
    requires free { clock.now.link.free ≤ now }
    requires early { now < 2 ^ 63 }
    requires rate { clock.now.rate ≡ shares.now.rate }
    requires priority { priority < 8 }
    requires asked { HasAsked shares.now (list_in rows.now) clock.now now priority 0 None }
    ensures { HasAsked shares.now (list_in rows.now) clock.now now (get_or rings.now.tops.items priority 0) 256 result }
{
    let some = rings.among(awake, priority);
    if some.is_empty() {
        return None;
    }
    let mut last = Lent::none();
    let mut best = None;
    let mut from = 0;
    'classes: while let Some(class) = some.first_from(from) {
        from = class + 1;
        let Some(head) = rows.head(class) else {
            continue;
        };
        if shares.may_send(class, head.len, now, clock, &mut last) {
            let rank = shares.rank(class, head.len);
            if leads(best, rank) {
                best = Some(rank);
            }
        } else if last.lender.is_none() {
            refused.put(class, true);
        }
    }
    best
}

/// The rank of the first of the classes that may send now, where one may. It asks those of the greatest priority first; where
/// one of them may send, those of lesser priority need not be asked, since none of them goes before it.
pub fn first_able<Q: QueueRule + Drop>(
    shares: &Shares,
    rows: &ClassQueues<Q>,
    awake: &ClassSet,
    rings: &Rings,
    now: u64,
    clock: &LinkClock,
    refused: &mut ClassSet,
) -> Option<Rank>
    requires first { rows.now.first ≡ 0 }
    requires count { length rows.now.queues ≡ length shares.now.tree }
    requires few { length shares.now.tree ≤ 256 }
    requires sized { (c : ℕ) → AreSized (list_in rows.now c) }
    requires awake { AreAwake shares.now (list_in rows.now) clock.now now awake.now }
    requires rings { AreRings shares.now.tree rings.now.sets.items rings.now.tops.items }
    requires others { (c : ℕ) → length shares.now.tree ≤ c → list_in rows.now c ≡ [] }
    requires free { clock.now.link.free ≤ now }
    requires early { now < 2 ^ 63 }
    requires rate { clock.now.rate ≡ shares.now.rate }
    ensures { result ≡ best shares.now.tree shares.now.rate (situation_in shares.now (list_in rows.now) clock.now.link) None
        (able shares.now.tree shares.now.rate (situation_in shares.now (list_in rows.now) clock.now.link) now) }
{
    let mut level = rings.tops[8];
    'levels: while level > 0 {
        let priority = level - 1;
        let best = able_at(shares, rows, awake, rings, priority, now, clock, refused);
        if best.is_some() {
            return best;
        }
        level = rings.tops[priority as usize];
    }
    None
}
