// A discipline up to a moment: what was offered, and what is sent before.

ghost use Rattle.std.specs.Prelude.{◌≡◌, ◌≤◌, ◌<◌, ◌^◌, [], ℕ, List, IfSome, length, unwrap_or};
ghost use Rattle.altq_model.specs.Lawful.{IsOneOf};
ghost use Rattle.discipline.specs.Laws.{HasRate};
ghost use Rattle.case_calls.specs.Standing.{IsAt};

use discipline::{Classify, Discipline, Pick, Sending};
use input_files::Records;
use leaf_queue::Words;
use link_clock::LinkClock;
use play_base::Ticket;

// The seed of the usual options.
const SEED: u64 = 42;

// At most 4,000,000 packets are sent, each behind one wait.
const MOST_TURNS: u32 = 8_000_001;

// Sends the packet that is due at `now`, or as soon as the link is free; else waits until one is. Answers the moment from which to go
// on, or nothing where no packet starts before `till`.
fn turn<D: Discipline>(
    discipline: &mut D,
    clock: &mut LinkClock,
    now: u64,
    till: u64,
) -> Option<u64>
    requires order { now ≤ till }
    requires early { till < 2 ^ 63 }
    requires rate { HasRate (D.view discipline.old).link_rate clock.old.rate }
    requires at { (most : ℕ) × IsAt (D.view discipline.old).represents clock.old most now till }
    ensures at { (most : ℕ) → IsAt (D.view discipline.old).represents clock.old most now till
        → IsAt (D.view discipline.new).represents clock.new most (unwrap_or result till) till }
    ensures order { IfSome result (λ t. t ≤ till) }
    ensures rate { HasRate (D.view discipline.new).link_rate clock.new.rate }
    ensures policy { (D.view discipline.new).policy ≡ (D.view discipline.old).policy }
{
    let start = clock.free().max(now);
    if start >= till {
        return None;
    }
    let (ticket, class, len, rule) = match discipline.next(start, clock) {
        Pick::Empty => return None,
        Pick::Wait { till: then } => {
            return if then < till { Some(then) } else { None };
        }
        Pick::Send {
            ticket,
            class,
            len,
            rule,
        } => (ticket, class, len, rule),
    };
    let end = clock.end_of(start, len);
    let sending = Sending {
        ticket,
        class,
        len,
        rule,
        start,
        end,
    };
    discipline.sent(sending, clock);
    clock.sent(start, len, end);
    Some(start)
}

// Makes each sending that starts before `till`.
fn send_before<D: Discipline>(discipline: &mut D, clock: &mut LinkClock, from: u64, till: u64)
    requires order { from ≤ till }
    requires early { till < 2 ^ 63 }
    requires rate { HasRate (D.view discipline.old).link_rate clock.old.rate }
    requires at { (most : ℕ) × IsAt (D.view discipline.old).represents clock.old most from from }
    ensures at { (most : ℕ) → IsAt (D.view discipline.old).represents clock.old most from from
        → IsAt (D.view discipline.new).represents clock.new most till till }
    ensures rate { HasRate (D.view discipline.new).link_rate clock.new.rate }
    ensures policy { (D.view discipline.new).policy ≡ (D.view discipline.old).policy }
{
    let mut now = from;
    for _ in 0..MOST_TURNS {
        match turn(discipline, clock, now, till) {
            Some(then) => now = then,
            None => return,
        }
    }
}

/// Plays records up to a moment: every packet that arrives by then is offered, and every sending is made that starts before it. A
/// sending that starts before a packet arrives is made before that packet is offered.
pub fn play_until<D: Discipline, C: Classify>(
    discipline: &mut D,
    clock: &mut LinkClock,
    classify: &C,
    records: &Records,
    moment: u64,
)
    requires early { moment < 2 ^ 63 }
    requires few { length records.now ≤ 4000000 }
    requires rate { HasRate (D.view discipline.old).link_rate clock.old.rate }
    requires new { IsAt (D.view discipline.old).represents clock.old 0 0 0 }
    requires held { (frame : List ℕ) → IsOneOf (C.placed classify.now frame).class (D.view discipline.old).policy.classes }
    requires precs { (frame : List ℕ) → (C.placed classify.now frame).prec ≤ 2 }
    ensures at { (most : ℕ) × IsAt (D.view discipline.new).represents clock.new most moment moment }
    ensures rate { HasRate (D.view discipline.new).link_rate clock.new.rate }
{
    let mut words = Words::new(SEED);
    let mut latest = 0u64;
    for place in 0..records.len() {
        let Some(found) = records.get(place) else {
            break;
        };
        let at = latest.max(found.stamp);
        if at > moment {
            break;
        }
        send_before(discipline, clock, latest, at);
        latest = at;
        let ticket = Ticket(place as u32 + 1);
        let placed = classify.class(found.bytes);
        let _ = discipline.offer(ticket, placed.class, found.len, placed.prec, at, &mut words);
    }
    send_before(discipline, clock, latest, moment);
}
