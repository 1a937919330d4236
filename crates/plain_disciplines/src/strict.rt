// Classes in a row, of which the first that is not empty is sent.
ghost use Rattle.std.specs.Prelude.{◌≡◌, ◌≤◌, ◌<◌, ◌+◌, ◌^◌, ◌↔◌, [], ℕ, All, IfOk, length, map};
ghost use Rattle.leaf_queue.specs.Queue.{by_queues};
ghost use Rattle.altq_model.specs.Policies.{strict};
ghost use Rattle.class_rows.specs.Rows.{IsNewQueue, classes_in, limit_at, list_in};
ghost use Rattle.plain_disciplines.specs.Strict.{IsStrict, Ordered, Represents, classes_from, first_pick, strict_due, strict_of};

use crate::{Discipline, Pick, Sending};
use altq_model::{Rule, Verdict};
use class_rows::ClassQueues;
use leaf_queue::{Entry, QueueRule, Words};
use link_clock::LinkClock;
use play_base::{NoMemory, Ticket};
use std::alloc::Global;
use std::marker::Model;

/// Classes in a row: the head of the first that is not empty is sent, by one rule. It never waits.
#[derive(Drop)]
pub struct Strict<Q: QueueRule + Drop> {
    rule: Rule,
    rows: ClassQueues<Q>,
}

impl<Q: QueueRule + Drop> Model for Strict<Q> {
    ghost Value = { Ordered Q };

    ghost view = { λ s. record { rule = s.rule; rows = s.rows } };

    ghost invariant = { λ s. IsStrict s.rows };
}

// The head of the first list that is not empty.
fn pick_from<Q: QueueRule + Drop>(rule: Rule, rows: &ClassQueues<Q>) -> Pick
    requires strict { IsStrict rows.now }
    ensures due { result ≡ first_pick rule (list_in rows.now) (classes_in rows.now) }
    ensures empty { (result ≡ Pick.Empty) ↔ ((c : ℕ) → list_in rows.now c ≡ []) }
{
    let first = rows.first();
    for class in first..first + rows.count() {
        if let Some(head) = rows.head(class) {
            return Pick::Send {
                ticket: head.ticket,
                class,
                len: head.len,
                rule,
            };
        }
    }
    Pick::Empty
}

impl<Q: QueueRule + Drop> Strict<Q> {
    /// The classes `first`, at most 1,000,000, `first` + 1 and so on, one for each of 1 to 256 queues, which stand for nothing
    /// asked or told yet and hold 1 to 10,000 packets. Each packet is sent by `rule`. Takes all the memory that it will ever take;
    /// `NoMemory` comes only when memory runs out.
    pub fn build(
        alloc: Global,
        first: u32,
        rule: Rule,
        queues: Vec<Q>,
    ) -> Result<Strict<Q>, NoMemory>
        requires first { first ≤ 1000000 }
        requires least { 1 ≤ length queues.items }
        requires most { length queues.items ≤ 256 }
        requires queues { All (IsNewQueue Q.stands Q.most) queues.items }
        ensures empty { IfOk result (λ s. (⟦<Strict<Q> as Discipline>⟧.view s).represents []) }
        ensures policy { IfOk result (λ s. (⟦<Strict<Q> as Discipline>⟧.view s).policy
            ≡ strict (classes_from first (length queues.items)) rule (by_queues first (map Q.says queues.items))) }
        ensures limits { IfOk result (λ s. (⟦<Strict<Q> as Discipline>⟧.view s).limits ≡ limit_at first (map Q.most queues.items)) }
    {
        let holds = vec![in alloc; true; queues.len()]?;
        let rows = ClassQueues::build(alloc, first, queues, holds)?;
        Ok(Strict { rule, rows })
    }
}

impl<Q: QueueRule + Drop> Discipline for Strict<Q> {
    ghost use Rattle.std.specs.Prelude.{[], None};
    ghost use Rattle.altq_model.specs.History.{unlabelled, offered};
    ghost use Rattle.altq_model.specs.Link.{link};
    ghost use Rattle.class_rows.specs.Rows.{limit_in, list_in};
    ghost use Rattle.class_rows.proofs.RowLemmas.{none_is_least};

    ghost view = { λ s. record {
      policy = strict_of Q.says s;
      limits = limit_in Q.most s.rows;
      link_rate = None;
      fixed = [];
      lists = list_in s.rows;
      represents = λ h. Represents Q.stands Q.says s h;
      due = λ clock now. strict_due s;
      given = 0;
      moment = 0;
      ended = 0;
    } };

    fn room(&self) -> u32 {
        self.rows.room()
    }

    fn offer(
        &mut self,
        ticket: Ticket,
        class: u32,
        len: u32,
        prec: u8,
        now: u64,
        words: &mut Words,
    ) -> Verdict {
        let entry = Entry { ticket, len, prec };
        self.rows.offer(class, entry, now, words)
    }

    fn next(&mut self, _now: u64, _clock: &LinkClock) -> Pick {
        pick_from(self.rule, &self.rows)
    }

    fn sent(&mut self, sending: Sending, _clock: &LinkClock) {
        self.rows.take(sending.class, sending.start);
    }

    ghost shows = { λ s h k. k.recorded.shown };

    ghost counts = { λ s h k. none_is_least (offered (unlabelled h)) };

    ghost moments = { λ s h k t l b. none_is_least t };

    ghost ends = { λ s h k r l. none_is_least (link r (unlabelled h)).free };

    ghost distinct = { λ s h k. k.plain.distinct };

    ghost orderly = { λ s h k. k.orderly };

    ghost lawful = { λ s h k. k.plain.lawful };

    ghost steady = { λ s h k. k.plain.steady };
}
