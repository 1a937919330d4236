// The laws of a discipline.
ghost use Rattle.std.specs.Prelude.{◌≡◌, ◌≤◌, ◌<◌, ◌-◌, ◌^◌, ◌↔◌, ◌∷◌, [], ℕ, List, length};
ghost use Rattle.altq_model.specs.Lawful.{IsLawful, IsOneOf, IsSteady, latest};
ghost use Rattle.altq_model.specs.History.{unlabelled, offered};
ghost use Rattle.altq_model.specs.Link.{end_of, link};
ghost use Rattle.leaf_queue.specs.Words.{Drew};
ghost use Rattle.discipline.specs.Moments.{IsChoice, IsOffer, IsOrderly, StartsBy};

use crate::{Pick, Sending};
use altq_model::Verdict;
use leaf_queue::Words;
use link_clock::LinkClock;
use play_base::Ticket;

/// A discipline holds the packets that wait for a link, each in the list of its class, and tells which is sent when. Its laws are
/// the clauses of its methods. They speak of the lists, and of the histories that the value represents: what was offered and sent,
/// the newest first, each with its ticket. After every such history its answers are those of one policy, which never changes.
/// Moments are in nanoseconds, lengths in bytes.
pub trait Discipline {
    ghost use Rattle.altq_model.specs.History.{LabelledEvent};
    ghost use Rattle.altq_model.specs.declared.Reason.{Reason};
    ghost use Rattle.discipline.specs.declared.pick.Pick.{Pick};
    ghost use Rattle.discipline.specs.Laws.{AreDistinct, HasRate, IsAnswer, IsDue, NamesHead, Waits, after_offer, after_sent, arrival_with, entry, held_in, offer_of, room_of, sent_of, Shows};
    ghost use Rattle.discipline.specs.View.{DisciplineView, SameKind, Unchanged};

    /// What it shows: its policy, limits and the rate of its link, which never change; and its lists, the histories that it represents,
    /// what is due, and what it counts and stores.
    ghost view: { Self → DisciplineView };

    /// The most packets that may wait in all classes together: the sum of the limits of the queue classes, 2,560,000 at most. It
    /// never changes, and no more wait. Does not allocate.
    fn room(&self) -> u32
        ensures sum { result ≡ room_of (view self.now).limits (view self.now).policy.classes }
        ensures bound { result ≤ 2560000 }
        ensures within { held_in (view self.now).lists (view self.now).policy.classes ≤ result };

    /// Offers a packet of a queue class, 1 to 262,144 bytes long, with a precedence of 0, 1 or 2, under a ticket. The verdict is
    /// that of the class's queue: `Drop(Full)` exactly where the queue is at its limit. A packet that is kept, marked or
    /// not, comes to the end of its class's list, and one that is dropped changes no list. Its moment, before 2^63, is no earlier
    /// than any before it, and later than each start. No more than 4,000,000 packets are offered. Does not allocate.
    fn offer(
        &mut self,
        ticket: Ticket,
        class: u32,
        len: u32,
        prec: u8,
        now: u64,
        words: &mut Words,
    ) -> Verdict
        requires class { IsOneOf class (view self.old).policy.classes }
        requires prec { prec ≤ 2 }
        requires least { 1 ≤ len }
        requires most { len ≤ 262144 }
        requires few { (view self.old).given < 4000000 }
        requires later { (view self.old).moment ≤ now }
        requires early { now < 2 ^ 63 }

        ensures lists { (c : ℕ) → (view self.new).lists c ≡ after_offer result class (entry ticket len prec) (view self.old).lists c }
        ensures full { (result ≡ Verdict.Drop Reason.Full) ↔ (length ((view self.old).lists class) ≡ (view self.old).limits class) }

        // after a history that it stood for: the verdict, the random words drawn, and the history with this offer
        ensures history { (h : List LabelledEvent) → (view self.old).represents h → IsOffer (arrival_with class len prec now) (unlabelled h)
            → words.old.drawn < 2 ^ 64 - 1
            → IsAnswer (view self.old).policy (unlabelled h) words.old (arrival_with class len prec now) result words.new
            × (view self.new).represents (offer_of (view self.old).policy h ticket words.old (arrival_with class len prec now) ∷ h) }

        ensures within { held_in (view self.new).lists (view self.new).policy.classes ≤ room_of (view self.new).limits (view self.new).policy.classes }
        ensures kind { SameKind (view self.old) (view self.new) };

    /// What is due at `now`, no earlier than the last end and before 2^63, under the link's clock. It is `Empty` exactly where
    /// every list is empty, and a `Send` of the head of its class's list where a class may send at `now`. Otherwise it is `Wait`
    /// till the least later moment at which one is due. Nothing changes. Does not allocate.
    fn next(&mut self, now: u64, clock: &LinkClock) -> Pick
        requires free { clock.now.link.free ≤ now }
        requires early { now < 2 ^ 63 }
        requires rate { HasRate (view self.old).link_rate clock.now.rate }
        requires later { (view self.old).moment ≤ now }
        requires after { (view self.old).ended ≤ clock.now.link.free }

        ensures due { result ≡ (view self.old).due clock.now now }
        ensures empty { (result ≡ Pick.Empty) ↔ ((c : ℕ) → (view self.old).lists c ≡ []) }
        ensures head { NamesHead (view self.old).lists result }
        ensures waits { Waits ((view self.old).due clock.now) now result }

        // after a history that it stands for, what is due is the policy's
        ensures policy { (h : List LabelledEvent) → (view self.old).represents h → IsChoice now clock.now (unlabelled h)
            → IsDue (view self.old).policy (unlabelled h) now result }

        ensures unchanged { Unchanged (view self.old) (view self.new) };

    /// Tells it of a sending, which is the one due at its start under the link's clock as it is before this sending, and whose end
    /// is that clock's. Its packet, the head of its class's list, leaves it, and nothing else does. Does not allocate.
    fn sent(&mut self, sending: Sending, clock: &LinkClock)
        requires free { clock.now.link.free ≤ sending.start }
        requires early { sending.start < 2 ^ 63 }
        requires rate { HasRate (view self.old).link_rate clock.now.rate }
        requires later { (view self.old).moment ≤ sending.start }
        requires after { (view self.old).ended ≤ clock.now.link.free }
        requires due { (view self.old).due clock.now sending.start ≡ Pick.Send sending.ticket sending.class sending.len sending.rule }
        requires end { sending.end ≡ end_of clock.now.rate clock.now.link sending.start sending.len }

        ensures lists { (c : ℕ) → (view self.new).lists c ≡ after_sent sending.class (view self.old).lists c }

        // after a history that it stood for: the history with this sending
        ensures history { (h : List LabelledEvent) → (view self.old).represents h → IsChoice sending.start clock.now (unlabelled h)
            → (view self.new).represents (sent_of sending ∷ h) }

        ensures within { held_in (view self.new).lists (view self.new).policy.classes ≤ room_of (view self.new).limits (view self.new).policy.classes }
        ensures kind { SameKind (view self.old) (view self.new) };

    /// In each history that it stands for, the packets that wait are those of its lists.
    ghost shows: { (d : Self) (h : List LabelledEvent) → (view d).represents h → (c : ℕ) → Shows c ((view d).lists c) h };

    /// It has counted no more offers than there were.
    ghost counts: { (d : Self) (h : List LabelledEvent) → (view d).represents h → (view d).given ≤ offered (unlabelled h) };

    /// The moment that it keeps is no later than the events of each such history, and the end that it keeps is no later than the
    /// link is free after it.
    ghost moments: { (d : Self) (h : List LabelledEvent) → (view d).represents h → (t : ℕ) → latest (unlabelled h) ≤ t → StartsBy t (unlabelled h)
        → (view d).moment ≤ t };

    ghost ends: { (d : Self) (h : List LabelledEvent) → (view d).represents h → (rate : ℕ) → HasRate (view d).link_rate rate
        → (view d).ended ≤ (link rate (unlabelled h)).free };

    /// No class is twice among the queue classes.
    ghost distinct: { (d : Self) (h : List LabelledEvent) → (view d).represents h → AreDistinct (view d).policy.classes };

    /// What it stands for is in order, each verdict in it was the policy's answer, and each sending the pick due.
    ghost orderly: { (d : Self) (h : List LabelledEvent) → (view d).represents h → IsOrderly (view d).policy (unlabelled h) };

    /// Its policy is lawful.
    ghost lawful: { (d : Self) (h : List LabelledEvent) → (view d).represents h → IsLawful (view d).policy };

    /// Its policy is steady.
    ghost steady: { (d : Self) (h : List LabelledEvent) → (view d).represents h → IsSteady (view d).policy };
}
