// One class, whose packets start at the multiples of a gap.
ghost use Rattle.std.specs.Prelude.{◌≡◌, ◌≤◌, ◌<◌, ◌^◌, ◌∷◌, [], IfOk};
ghost use Rattle.leaf_queue.specs.Queue.{by_queues};
ghost use Rattle.plain_disciplines.specs.Paced.{IsPacing, Pacing, Represents, due_of, paced, paced_of};

use crate::{Discipline, Pick, Sending};
use altq_model::{Rule, Verdict};
use class_rows::ClassQueues;
use leaf_queue::{Entry, QueueRule, Words};
use link_clock::LinkClock;
use play_base::{NoMemory, Ticket};
use std::alloc::Global;
use std::marker::Model;

/// One class, whose packets start at the multiples of a gap, by the rule Own.
#[derive(Drop)]
pub struct Paced<Q: QueueRule + Drop> {
    gap: u64,
    rows: ClassQueues<Q>,
}

impl<Q: QueueRule + Drop> Model for Paced<Q> {
    ghost Value = { Pacing Q };

    ghost view = { λ p. record { gap = p.gap; rows = p.rows } };

    ghost invariant = { λ p. IsPacing p.gap p.rows };
}

impl<Q: QueueRule + Drop> Paced<Q> {
    /// One class with this queue, 1 to 10,000 packets, which stands for nothing asked or told yet. Its packets start at the multiples
    /// of `gap` nanoseconds, 1 at least. Takes all the memory that it will ever take; `NoMemory` comes only when memory runs out.
    pub fn build(alloc: Global, class: u32, gap: u64, queue: Q) -> Result<Paced<Q>, NoMemory>
        requires gap { 1 ≤ gap }
        requires least { 1 ≤ Q.most queue }
        requires most { Q.most queue ≤ 10000 }
        requires queue { Q.stands queue [] }
        ensures empty { IfOk result (λ p. (⟦<Paced<Q> as Discipline>⟧.view p).represents []) }
        ensures policy { IfOk result (λ p. (⟦<Paced<Q> as Discipline>⟧.view p).policy ≡ paced class gap (by_queues class (Q.says queue ∷ []))) }
        ensures limit { IfOk result (λ p. (⟦<Paced<Q> as Discipline>⟧.view p).limits class ≡ Q.most queue) }
    {
        let mut queues = Vec::new(alloc);
        queues.push(queue)?;
        let holds = vec![in alloc; true; 1]?;
        let rows = ClassQueues::build(alloc, class, queues, holds)?;
        Ok(Paced { gap, rows })
    }
}

impl<Q: QueueRule + Drop> Discipline for Paced<Q> {
    ghost use Rattle.std.specs.Prelude.{[], None};
    ghost use Rattle.altq_model.specs.History.{unlabelled, offered};
    ghost use Rattle.altq_model.specs.Link.{link};
    ghost use Rattle.class_rows.specs.Rows.{limit_in, list_in};
    ghost use Rattle.class_rows.proofs.RowLemmas.{none_is_least};

    ghost view = { λ p. record {
      policy = paced_of Q.says p;
      limits = limit_in Q.most p.rows;
      link_rate = None;
      fixed = [];
      lists = list_in p.rows;
      represents = λ h. Represents Q.stands Q.says p h;
      due = λ clock now. due_of p now;
      given = 0;
      moment = 0;
      ended = 0;
    } };

    fn room(&self) -> u32 {
        self.rows.room()
    }

    fn offer(
        &mut self,
        ticket: Ticket,
        class: u32,
        len: u32,
        prec: u8,
        now: u64,
        words: &mut Words,
    ) -> Verdict {
        let entry = Entry { ticket, len, prec };
        self.rows.offer(class, entry, now, words)
    }

    fn next(&mut self, now: u64, _clock: &LinkClock) -> Pick {
        let class = self.rows.first();
        let Some(head) = self.rows.head(class) else {
            return Pick::Empty;
        };
        let till = now.div_ceil(self.gap) * self.gap;
        if till > now {
            return Pick::Wait { till };
        }
        Pick::Send {
            ticket: head.ticket,
            class,
            len: head.len,
            rule: Rule::Own,
        }
    }

    fn sent(&mut self, sending: Sending, _clock: &LinkClock) {
        self.rows.take(sending.class, sending.start);
    }

    ghost shows = { λ p h s. s.recorded.shown };

    ghost counts = { λ p h s. none_is_least (offered (unlabelled h)) };

    ghost moments = { λ p h s t l b. none_is_least t };

    ghost ends = { λ p h s r l. none_is_least (link r (unlabelled h)).free };

    ghost distinct = { λ p h s. s.plain.distinct };

    ghost orderly = { λ p h s. s.orderly };

    ghost lawful = { λ p h s. s.plain.lawful };

    ghost steady = { λ p h s. s.plain.steady };
}
