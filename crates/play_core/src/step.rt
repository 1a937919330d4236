// What comes next in a play, as a discipline answers it.
ghost use Rattle.std.specs.Prelude.{◌≡◌, ◌≤◌, ◌<◌, ◌*◌, ◌^◌, ℕ, IsSome, List, Some, slice_get};
ghost use Rattle.altq_model.specs.History.{LabelledEvent, unlabelled, labels};
ghost use Rattle.altq_model.specs.Link.{end_of};
ghost use Rattle.discipline.specs.Laws.{HasRate, Sends};
ghost use Rattle.discipline.specs.View.{Unchanged};
ghost use Rattle.discipline.specs.Moments.{IsChoice};
ghost use Rattle.play_core.specs.Steps.{IsSentAt, IsStep, comes_by, step_at};

use altq_model::Rule;
use discipline::{Discipline, Pick, Sending};
use link_clock::LinkClock;
use play_base::Ticket;

/// The end of the clock, 2^32 seconds, in nanoseconds: the first moment that a capture cannot stamp. No packet may end at it or
/// later.
const CLOCK_END: u64 = 4_294_967_296_000_000_000;

// What comes next in a play.
#[derive(Clone, Copy)]
pub(crate) enum Step {
    // Nothing: nothing waits, and no packet is left to offer.
    End,
    // The offer of the next arrival.
    Offer,
    // This sending.
    Send(Sending),
    // A sending that would end at 2^32 seconds or later.
    Late,
}

// Whether the next arrival, if any, comes by a moment.
fn comes_by(arrival: Option<u64>, moment: u64) -> bool
    ensures { result ≡ comes_by arrival moment }
{
    match arrival {
        Some(at) => at <= moment,
        None => false,
    }
}

// The sending of a packet at a moment, if it ends in time.
fn send_at(clock: &LinkClock, start: u64, ticket: Ticket, class: u32, len: u32, rule: Rule) -> Step
    requires free { clock.now.link.free ≤ start }
    requires early { start < 2 ^ 63 }
    ensures { result ≡ step_at ticket class len rule start (end_of clock.now.rate clock.now.link start len) }
{
    let end = clock.end_of(start, len);
    if end >= CLOCK_END {
        return Step::Late;
    }
    Step::Send(Sending {
        ticket,
        class,
        len,
        rule,
        start,
        end,
    })
}

// The sending that is due at a moment at which one is.
#[inline(never)]
fn what_is_sent<D: Discipline>(discipline: &mut D, clock: &LinkClock, till: u64) -> Step
    requires free { clock.now.link.free ≤ till }
    requires positive { 0 < clock.now.rate }
    requires rate { HasRate (D.view discipline.old).link_rate clock.now.rate }
    requires later { (D.view discipline.old).moment ≤ till }
    requires after { (D.view discipline.old).ended ≤ clock.now.link.free }
    requires sends { Sends ((D.view discipline.old).due clock.now till) }
    ensures sent { (h : List LabelledEvent) → (D.view discipline.old).represents h → IsChoice till clock.now (unlabelled h) →
        IsSentAt (D.view discipline.old).policy clock.now till (unlabelled h) result }
    ensures due { (s : Sending) → result ≡ Step.Send s →
        (D.view discipline.new).due clock.now s.start ≡ Pick.Send s.ticket s.class s.len s.rule }
    ensures offers_none { result ≡ Step.Offer → ⊥ }
    ensures starts { (s : Sending) → result ≡ Step.Send s → s.start ≡ till }
    ensures soon { (s : Sending) → result ≡ Step.Send s → s.start < 2 ^ 63 }
    ensures ends { (s : Sending) → result ≡ Step.Send s → s.end ≡ end_of clock.now.rate clock.now.link s.start s.len }
    ensures early { (s : Sending) → result ≡ Step.Send s → s.end < 2 ^ 32 * 10 ^ 9 }
    ensures ticket { (h : List LabelledEvent) → (D.view discipline.old).represents h → (s : Sending) → result ≡ Step.Send s →
        slice_get (labels s.class h) 0 ≡ Some s.ticket.0 }
    ensures unchanged { Unchanged (D.view discipline.old) (D.view discipline.new) }
{
    if till >= CLOCK_END {
        return Step::Late;
    }
    match discipline.next(till, clock) {
        Pick::Send {
            ticket,
            class,
            len,
            rule,
        } => send_at(clock, till, ticket, class, len, rule),
        Pick::Wait { .. } | Pick::Empty => unreachable!(),
    }
}

// What comes next, given the next arrival, in nanoseconds, if there is one: an arrival up to the least moment at which a class
// may send is offered first. `moment` is no earlier than the last end nor than any arrival that was offered. The discipline is
// asked again where it waits. Does not allocate.
#[tactic(auto, using(discipline::proofs::ViewLaws::unchanged_refl, discipline::proofs::ViewLaws::unchanged_trans))]
#[inline(always)]
pub(crate) fn next_step<D: Discipline>(
    discipline: &mut D,
    clock: &LinkClock,
    moment: u64,
    arrival: Option<u64>,
) -> Step
    requires free { clock.now.link.free ≤ moment }
    requires early { moment < 2 ^ 63 }
    requires positive { 0 < clock.now.rate }
    requires rate { HasRate (D.view discipline.old).link_rate clock.now.rate }
    requires later { (D.view discipline.old).moment ≤ moment }
    requires after { (D.view discipline.old).ended ≤ clock.now.link.free }
    ensures step { (h : List LabelledEvent) → (D.view discipline.old).represents h → IsChoice moment clock.now (unlabelled h) →
        IsStep (D.view discipline.old).policy clock.now moment (unlabelled h) arrival result }
    ensures due { (s : Sending) → result ≡ Step.Send s →
        (D.view discipline.new).due clock.now s.start ≡ Pick.Send s.ticket s.class s.len s.rule }
    ensures offers { result ≡ Step.Offer → IsSome arrival }
    ensures starts { (s : Sending) → result ≡ Step.Send s → moment ≤ s.start }
    ensures soon { (s : Sending) → result ≡ Step.Send s → s.start < 2 ^ 63 }
    ensures ends { (s : Sending) → result ≡ Step.Send s → s.end ≡ end_of clock.now.rate clock.now.link s.start s.len }
    ensures early { (s : Sending) → result ≡ Step.Send s → s.end < 2 ^ 32 * 10 ^ 9 }
    ensures ticket { (h : List LabelledEvent) → (D.view discipline.old).represents h → (s : Sending) → result ≡ Step.Send s →
        slice_get (labels s.class h) 0 ≡ Some s.ticket.0 }
    ensures unchanged { Unchanged (D.view discipline.old) (D.view discipline.new) }
{
    // No class may send before this moment, so the discipline need not be asked.
    if comes_by(arrival, moment) {
        return Step::Offer;
    }
    match discipline.next(moment, clock) {
        Pick::Empty => match arrival {
            Some(_) => Step::Offer,
            None => Step::End,
        },
        Pick::Send {
            ticket,
            class,
            len,
            rule,
        } => send_at(clock, moment, ticket, class, len, rule),
        Pick::Wait { till } => {
            if comes_by(arrival, till) {
                return Step::Offer;
            }
            what_is_sent(discipline, clock, till)
        }
    }
}
