// The classes that are held back: they are over their rates, have no lender, and are not asked before a moment of their own.
ghost use Rattle.std.specs.Prelude.{◌≡◌, ◌≤◌, ◌<◌, ◌^◌, ℕ, [], length, get_or};
ghost use Rattle.altq_model.specs.Link.{end_of};
ghost use Rattle.class_rows.specs.Rows.{list_in};
ghost use Rattle.class_sets.specs.Marked.{marked};
ghost use Rattle.cbq_sharing.specs.Held.{AreHeld};
ghost use Rattle.cbq_sharing.specs.Waiting.{AreSized, AreWaiting};

use crate::sharing::Shares;
use class_rows::ClassQueues;
use class_sets::{ClassSet, HeldClasses};
use leaf_queue::QueueRule;
use link_clock::LinkClock;

/// Holds those classes back no longer that may send at `now`. A packet that goes on with the link's run may end sooner than by its own
/// time, but by no more than the end of an empty packet shows. One division where a class is held back.
pub fn wake(held: &mut HeldClasses, now: u64, clock: &LinkClock)
    requires free { clock.now.link.free ≤ now }
    requires early { now < 2 ^ 63 }
    ensures fewer { (c : ℕ) → marked held.new.set c ≡ 1 → marked held.old.set c ≡ 1 }
    ensures late { (c : ℕ) → marked held.new.set c ≡ 1 → end_of clock.now.rate clock.now.link now 0 < get_or held.new.moments c 0 }
    ensures moments { held.new.moments ≡ held.old.moments }
{
    if !held.is_empty() {
        held.wake(clock.end_of(now, 0));
    }
}

/// Holds those of the classes that were refused at `now` back which will be for longer than a nanosecond.
pub fn hold_refused<Q: QueueRule + Drop>(
    held: &mut HeldClasses,
    shares: &Shares,
    rows: &ClassQueues<Q>,
    waiting: &ClassSet,
    refused: &ClassSet,
    now: u64,
    clock: &LinkClock,
)
    requires first { rows.now.first ≡ 0 }
    requires count { length rows.now.queues ≡ length shares.now.tree }
    requires few { length shares.now.tree ≤ 256 }
    requires sized { (c : ℕ) → AreSized (list_in rows.now c) }
    requires others { (c : ℕ) → length shares.now.tree ≤ c → list_in rows.now c ≡ [] }
    requires waiting { AreWaiting waiting.now (list_in rows.now) }
    requires free { clock.now.link.free ≤ now }
    requires early { now < 2 ^ 63 }
    requires rate { clock.now.rate ≡ shares.now.rate }
    requires held { AreHeld shares.now (list_in rows.now) held.old }
    ensures { AreHeld shares.now (list_in rows.now) held.new }
{
    if refused.is_empty() {
        return;
    }
    let some = refused.within(waiting);
    let mut from = 0;
    'classes: while let Some(class) = some.first_from(from) {
        from = class + 1;
        if let Some(head) = rows.head(class) {
            if let Some(moment) = shares.held_till(class, head.len, now, clock) {
                held.hold(class, moment);
            }
        }
    }
}
