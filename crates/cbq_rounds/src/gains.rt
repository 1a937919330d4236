// What the candidates of a sending gain.
ghost use Rattle.std.specs.Prelude.{◌≡◌, ◌≤◌, ◌<◌, ◌^◌, ℕ, [], length, Some};
ghost use Rattle.altq_model.specs.Link.{end_of};
ghost use Rattle.class_rows.specs.Rows.{list_in};
ghost use Rattle.discipline.specs.declared.pick.Pick.{Pick};
ghost use Rattle.cbq_rounds.specs.Due.{due_in};
ghost use Rattle.class_sets.specs.Marked.{marked};
ghost use Rattle.cbq_sharing.specs.Held.{AreAwake, AreHeld};
ghost use Rattle.cbq_rounds.specs.Gained.{with_gains};
ghost use Rattle.cbq_sharing.specs.Lent.{IsLent};
ghost use Rattle.cbq_sharing.specs.Rings.{AreRings};
ghost use Rattle.cbq_sharing.specs.Shared.{head_len, may_end};
ghost use Rattle.cbq_sharing.specs.Waiting.{AreSized, AreWaiting};

use cbq_sharing::{Lent, Rings, Shares, wake};
use class_rows::ClassQueues;
use class_sets::{ClassSet, HeldClasses};
use discipline::Sending;
use leaf_queue::QueueRule;
use link_clock::LinkClock;

// Whether a class in which a packet waits may send it at `now`. Its head is looked at only where it has to be asked.
fn may_gain<Q: QueueRule + Drop>(
    shares: &Shares,
    rows: &ClassQueues<Q>,
    class: u32,
    now: u64,
    clock: &LinkClock,
    last: &mut Lent,
) -> bool
    requires class { class < length shares.now.tree }
    requires first { rows.now.first ≡ 0 }
    requires count { length rows.now.queues ≡ length shares.now.tree }
    requires sized { (c : ℕ) → AreSized (list_in rows.now c) }
    requires free { clock.now.link.free ≤ now }
    requires early { now < 2 ^ 63 }
    requires lent { IsLent shares.now.tree shares.now.estimates clock.now now last.old }
    ensures may { (len : ℕ) → head_len (list_in rows.now class) ≡ Some len
        → result ≡ may_end shares.now.tree shares.now.estimates (end_of clock.now.rate clock.now.link now len) len class }
    ensures lent { IsLent shares.now.tree shares.now.estimates clock.now now last.new }
{
    if shares.is_rooted(class) {
        return true;
    }
    let Some(head) = rows.head(class) else {
        return false;
    };
    shares.asks(class, head.len, now, clock, last)
}

// Gives each candidate of a sending, which is the one due at its start, its quantum in each of the rounds that the class sent needed.
// If it needed any, it asks each class of its priority that is awake once, and the lenders of each once for those of one parent in turn.
fn gain_all<Q: QueueRule + Drop>(
    shares: &mut Shares,
    rows: &ClassQueues<Q>,
    awake: &ClassSet,
    rings: &Rings,
    sending: &Sending,
    clock: &LinkClock,
)
    requires first { rows.now.first ≡ 0 }
    requires count { length rows.now.queues ≡ length shares.old.tree }
    requires credits { length shares.old.credits ≡ length shares.old.tree }
    requires sized { (c : ℕ) → AreSized (list_in rows.now c) }
    requires awake { AreAwake shares.old (list_in rows.now) clock.now sending.now.start awake.now }
    requires rings { AreRings shares.old.tree rings.now.sets.items rings.now.tops.items }
    requires few { length shares.old.tree ≤ 256 }
    requires others { (c : ℕ) → length shares.old.tree ≤ c → list_in rows.now c ≡ [] }
    requires free { clock.now.link.free ≤ sending.now.start }
    requires early { sending.now.start < 2 ^ 63 }
    requires rate { clock.now.rate ≡ shares.old.rate }
    requires due { due_in shares.old (list_in rows.now) clock.now sending.now.start
        ≡ Pick.Send sending.now.ticket sending.now.class sending.now.len sending.now.rule }
    ensures { shares.new ≡ with_gains shares.old (list_in rows.now) clock.now sending.now }
{
    let rounds = shares.rounds(sending.class, sending.len);
    if rounds == 0 {
        return;
    }
    let priority = shares.priority(sending.class);
    let some = rings.among(awake, priority);
    let mut last = Lent::none();
    let mut from = 0;
    'classes: while let Some(class) = some.first_from(from) {
        from = class + 1;
        if may_gain(shares, rows, class, sending.start, clock, &mut last) {
            shares.gain(class, rounds);
        }
    }
}

/// Holds those classes back no longer that may send at the start of a sending, and gives the candidates of it their gains.
pub fn gain_awake<Q: QueueRule + Drop>(
    shares: &mut Shares,
    held: &mut HeldClasses,
    rows: &ClassQueues<Q>,
    waiting: &ClassSet,
    rings: &Rings,
    sending: &Sending,
    clock: &LinkClock,
)
    requires first { rows.now.first ≡ 0 }
    requires count { length rows.now.queues ≡ length shares.old.tree }
    requires credits { length shares.old.credits ≡ length shares.old.tree }
    requires sized { (c : ℕ) → AreSized (list_in rows.now c) }
    requires waiting { AreWaiting waiting.now (list_in rows.now) }
    requires held { AreHeld shares.old (list_in rows.now) held.old }
    requires rings { AreRings shares.old.tree rings.now.sets.items rings.now.tops.items }
    requires few { length shares.old.tree ≤ 256 }
    requires others { (c : ℕ) → length shares.old.tree ≤ c → list_in rows.now c ≡ [] }
    requires free { clock.now.link.free ≤ sending.now.start }
    requires early { sending.now.start < 2 ^ 63 }
    requires rate { clock.now.rate ≡ shares.old.rate }
    requires due { due_in shares.old (list_in rows.now) clock.now sending.now.start
        ≡ Pick.Send sending.now.ticket sending.now.class sending.now.len sending.now.rule }
    ensures gains { shares.new ≡ with_gains shares.old (list_in rows.now) clock.now sending.now }
    ensures fewer { (c : ℕ) → marked held.new.set c ≡ 1 → marked held.old.set c ≡ 1 }
    ensures moments { held.new.moments ≡ held.old.moments }
{
    wake(held, sending.start, clock);
    let awake = held.awake(waiting);
    gain_all(shares, rows, &awake, rings, sending, clock);
}
