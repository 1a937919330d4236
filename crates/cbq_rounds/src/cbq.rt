// CBQ with its queues.
ghost use Rattle.std.specs.Prelude.{◌≡◌, ◌≤◌, ◌<◌, ◌^◌, [], ℕ, List, All, IfOk, length, map, None, Some, if◌then◌else◌};
ghost use Rattle.altq_model.specs.declared.Rule.TheVariants.{Own, Borrow};
ghost use Rattle.class_rows.specs.Rows.{IsNewQueue, limit_at, list_in};
ghost use Rattle.leaf_queue.specs.Queue.{by_queues};
ghost use Rattle.cbq_model.specs.Ways.{IsEightDeep};
ghost use Rattle.cbq_model.specs.Choice.{able, best};
ghost use Rattle.cbq_model.specs.Rounds.{cbq};
ghost use Rattle.cbq_rounds.specs.Due.{due_in, first_in};
ghost use Rattle.cbq_sharing.specs.Fresh.{IsClass};
ghost use Rattle.cbq_sharing.specs.Shared.{situation_in};
ghost use Rattle.cbq_sharing.specs.Waiting.{AreSized};
ghost use Rattle.cbq_rounds.specs.Stands.{IsRuling, Ruling};

use crate::gains::gain_awake;
use crate::look::{Found, look};
use altq_model::{Rule, Verdict};
use cbq_model::CbqClass;
use cbq_sharing::{Rings, Shares, hold_refused, wake};
use class_rows::ClassQueues;
use class_sets::{ClassSet, HeldClasses};
use discipline::{Discipline, Pick, Sending};
use leaf_queue::{Entry, QueueRule, Words};
use link_clock::LinkClock;
use play_base::{NoMemory, Ticket};
use std::alloc::Global;
use std::marker::Model;

/// CBQ: classes that share a link.
#[derive(Drop)]
pub struct Cbq<Q: QueueRule + Drop> {
    shares: Shares,
    rows: ClassQueues<Q>,
    waiting: ClassSet,
    held: HeldClasses,
    rings: Rings,
}

impl<Q: QueueRule + Drop> Model for Cbq<Q> {
    ghost Value = { Ruling Q };

    ghost view = { λ d. record { shares = d.shares; rows = d.rows } };

    ghost invariant = { λ d. IsRuling d.shares d.rows (record { waiting = d.waiting; held = d.held; sets = d.rings.sets.items; tops = d.rings.tops.items }) };
}

impl<Q: QueueRule + Drop> Cbq<Q> {
    /// CBQ with these classes, at most 256, on a link of `rate` bits per second, 1,000 to 10^12. Every class may hold packets, and
    /// there is one queue for each, which stands for nothing asked or told yet and holds 1 to 10,000 packets. Each parent stands
    /// earlier in the list, and no class is deeper than 8 levels. Takes all the memory that it will ever take; `NoMemory` comes only
    /// when memory runs out.
    pub fn build(
        alloc: Global,
        classes: &[CbqClass],
        rate: u64,
        queues: Vec<Q>,
    ) -> Result<Cbq<Q>, NoMemory>
        requires least { 1000 ≤ rate }
        requires most { rate ≤ 10 ^ 12 }
        requires few { length classes.now ≤ 256 }
        requires one_each { length queues.items ≡ length classes.now }
        requires tree { IsEightDeep classes.now }
        requires classes { All IsClass classes.now }
        requires queues { All (IsNewQueue Q.stands Q.most) queues.items }
        ensures empty { IfOk result (λ d. (⟦<Cbq<Q> as Discipline>⟧.view d).represents []) }
        ensures policy { IfOk result (λ d. (⟦<Cbq<Q> as Discipline>⟧.view d).policy ≡ cbq classes.now rate (by_queues 0 (map Q.says queues.items))) }
        ensures limits { IfOk result (λ d. (⟦<Cbq<Q> as Discipline>⟧.view d).limits ≡ limit_at 0 (map Q.most queues.items)) }
        ensures rate { IfOk result (λ d. (⟦<Cbq<Q> as Discipline>⟧.view d).link_rate ≡ Some rate) }
    {
        let holds = vec![in alloc; true; queues.len()]?;
        let rows = ClassQueues::build(alloc, 0, queues, holds)?;
        let shares = Shares::build(alloc, classes, rate)?;
        let rings = Rings::build(alloc, classes)?;
        let held = HeldClasses::none(alloc)?;
        Ok(Cbq {
            shares,
            rows,
            waiting: ClassSet::none(),
            held,
            rings,
        })
    }
}

// A class sends as its own what it allows itself, and else borrows.
fn rule_of(allowed: bool) -> Rule
    ensures { result ≡ (if allowed then Own else Borrow) }
{
    if allowed { Rule::Own } else { Rule::Borrow }
}

// What is due, by what a look has found.
fn pick_of<Q: QueueRule + Drop>(
    shares: &Shares,
    rows: &ClassQueues<Q>,
    found: &Found,
    now: u64,
    clock: &LinkClock,
) -> Pick
    requires first { rows.now.first ≡ 0 }
    requires count { length rows.now.queues ≡ length shares.now.tree }
    requires sized { (c : ℕ) → AreSized (list_in rows.now c) }
    requires free { clock.now.link.free ≤ now }
    requires early { now < 2 ^ 63 }
    requires rate { clock.now.rate ≡ shares.now.rate }
    requires till { found.now.till ≡ first_in shares.now (list_in rows.now) clock.now now }
    requires best { found.now.best ≡ best shares.now.tree shares.now.rate (situation_in shares.now (list_in rows.now) clock.now.link) None
        (able shares.now.tree shares.now.rate (situation_in shares.now (list_in rows.now) clock.now.link) now) }
    ensures { result ≡ due_in shares.now (list_in rows.now) clock.now now }
{
    let Some(till) = found.till else {
        return Pick::Empty;
    };
    if till > now {
        return Pick::Wait { till };
    }
    let Some(best) = found.best else {
        return Pick::Empty;
    };
    let Some(head) = rows.head(best.class) else {
        return Pick::Empty;
    };
    let allowed = shares.allows(best.class, head.len, now, clock);
    Pick::Send {
        ticket: head.ticket,
        class: best.class,
        len: head.len,
        rule: rule_of(allowed),
    }
}

impl<Q: QueueRule + Drop> Discipline for Cbq<Q> {
    ghost use Rattle.std.specs.Prelude.{[], Some};
    ghost use Rattle.altq_model.specs.History.{unlabelled, offered};
    ghost use Rattle.class_rows.specs.Rows.{limit_in, list_in};
    ghost use Rattle.class_rows.proofs.RowLemmas.{none_is_least};
    ghost use Rattle.cbq_rounds.specs.Due.{due_in};
    ghost use Rattle.cbq_rounds.specs.Stands.{Represents, cbq_of};

    ghost view = { λ d. record {
      policy = cbq_of Q.says d;
      limits = limit_in Q.most d.rows;
      link_rate = Some d.shares.rate;
      fixed = [];
      lists = list_in d.rows;
      represents = λ h. Represents Q.stands Q.says d h;
      due = λ clock now. due_in d.shares (list_in d.rows) clock now;
      given = 0;
      moment = 0;
      ended = d.shares.ended;
    } };

    fn room(&self) -> u32 {
        self.rows.room()
    }

    fn offer(
        &mut self,
        ticket: Ticket,
        class: u32,
        len: u32,
        prec: u8,
        now: u64,
        words: &mut Words,
    ) -> Verdict {
        let entry = Entry { ticket, len, prec };
        let verdict = self.rows.offer(class, entry, now, words);
        self.waiting.put(class, verdict.is_kept());
        verdict
    }

    fn next(&mut self, now: u64, clock: &LinkClock) -> Pick {
        wake(&mut self.held, now, clock);
        let awake = self.held.awake(&self.waiting);
        let mut refused = ClassSet::none();
        let found = look(
            &self.shares,
            &self.rows,
            &self.waiting,
            &awake,
            &self.rings,
            now,
            clock,
            &mut refused,
        );
        hold_refused(
            &mut self.held,
            &self.shares,
            &self.rows,
            &self.waiting,
            &refused,
            now,
            clock,
        );
        pick_of(&self.shares, &self.rows, &found, now, clock)
    }

    fn sent(&mut self, sending: Sending, clock: &LinkClock) {
        // The clock's own ends are bounded.
        prove!(sending.end == clock.end_of(sending.start, sending.len));
        let end = sending.end.max(self.shares.last_end());
        gain_awake(
            &mut self.shares,
            &mut self.held,
            &self.rows,
            &self.waiting,
            &self.rings,
            &sending,
            clock,
        );
        self.rows.take(sending.class, sending.start);
        let emptied = self.rows.head(sending.class).is_none();
        self.waiting.take(sending.class, emptied);
        self.shares.pay(sending.class, sending.len, emptied);
        self.shares.set_last(sending.class, end);
        self.shares.tell(sending.class, sending.len, &mut self.held);
    }

    ghost shows = { λ d h s. s.recorded.shown };

    ghost counts = { λ d h s. none_is_least (offered (unlabelled h)) };

    ghost moments = { λ d h s t l b. none_is_least t };

    ghost ends = { λ d h s r l. s.ended r l };

    ghost distinct = { λ d h s. s.distinct };

    ghost orderly = { λ d h s. s.orderly };

    ghost lawful = { λ d h s. s.lawful };

    ghost steady = { λ d h s. s.steady };
}
