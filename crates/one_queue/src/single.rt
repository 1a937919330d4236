// One class that holds packets.
ghost use Rattle.std.specs.Prelude.{◌≡◌, ◌≤◌, ◌<◌, ◌+◌, ◌^◌, ◌∷◌, [], All, IfOk, length, map, replicate, slice_index, slice_set, true, false};
ghost use Rattle.altq_model.specs.declared.Rule.{Rule};
ghost use Rattle.altq_model.specs.Policies.{strict};
ghost use Rattle.leaf_queue.specs.Queue.{by_queues};
ghost use Rattle.class_rows.specs.Rows.{IsNewQueue, list_in};
ghost use Rattle.one_queue.specs.Single.{IsSingle, Single, Represents, due_in, due_of, policy_of};

use class_rows::ClassQueues;
use discipline::{Discipline, Pick, Rule, Sending, Verdict};
use leaf_queue::{Entry, QueueRule, Words};
use link_clock::LinkClock;
use play_base::{NoMemory, Ticket};
use std::alloc::Global;
use std::marker::Model;

/// Classes of which one alone holds packets: its head is sent by share, at once wherever one waits.
#[derive(Drop)]
pub struct OneQueue<Q: QueueRule + Drop> {
    class: u32,
    rows: ClassQueues<Q>,
}

impl<Q: QueueRule + Drop> Model for OneQueue<Q> {
    ghost Value = { Single Q };

    ghost view = { λ d. record { class = d.class; rows = d.rows } };

    ghost invariant = { λ d. IsSingle d.class d.rows };
}

// The head of the class's list is sent.
fn head_of<Q: QueueRule + Drop>(rows: &ClassQueues<Q>, class: u32) -> Pick
    requires low { rows.now.first ≤ class }
    requires high { class < rows.now.first + length rows.now.queues }
    ensures { result ≡ due_in class (list_in rows.now class) }
{
    match rows.head(class) {
        None => Pick::Empty,
        Some(head) => Pick::Send {
            ticket: head.ticket,
            class,
            len: head.len,
            rule: Rule::Share,
        },
    }
}

// Which of `count` classes hold packets: this one.
fn one_of(alloc: Global, count: usize, class: u32) -> Result<Vec<bool>, NoMemory>
    requires { class < count }
    ensures { IfOk result (λ holds. holds.items ≡ slice_set (replicate count false) class true) }
{
    let mut holds = vec![in alloc; false; count]?;
    holds[class as usize] = true;
    Ok(holds)
}

impl<Q: QueueRule + Drop> OneQueue<Q> {
    /// The classes of an interface from 0 on, with one queue for each of at most 256, which stands for nothing asked or told yet and holds
    /// 1 to 10,000 packets. Only `class` holds packets. Takes all the memory that it will ever take; `NoMemory` comes only when memory
    /// runs out.
    pub fn build(alloc: Global, class: u32, queues: Vec<Q>) -> Result<OneQueue<Q>, NoMemory>
        requires class { class < length queues.items }
        requires most { length queues.items ≤ 256 }
        requires queues { All (IsNewQueue Q.stands Q.most) queues.items }
        ensures empty { IfOk result (λ d. (⟦<OneQueue<Q> as Discipline>⟧.view d).represents []) }
        ensures policy { IfOk result (λ d. (⟦<OneQueue<Q> as Discipline>⟧.view d).policy
            ≡ strict (class ∷ []) Rule.Share (by_queues 0 (map Q.says queues.items))) }
        ensures limit { IfOk result (λ d. (⟦<OneQueue<Q> as Discipline>⟧.view d).limits class ≡ slice_index (map Q.most queues.items) class) }
    {
        let holds = one_of(alloc, queues.len(), class)?;
        let rows = ClassQueues::build(alloc, 0, queues, holds)?;
        Ok(OneQueue { class, rows })
    }
}

impl<Q: QueueRule + Drop> Discipline for OneQueue<Q> {
    ghost use Rattle.std.specs.Prelude.{[], None};
    ghost use Rattle.altq_model.specs.declared.Rule.TheVariants.{Share};
    ghost use Rattle.altq_model.specs.History.{unlabelled, offered};
    ghost use Rattle.altq_model.specs.Link.{link};
    ghost use Rattle.class_rows.specs.Rows.{answering, limit_in};
    ghost use Rattle.class_rows.proofs.RowLemmas.{holding_distinct, none_is_least};
    ghost use Rattle.play_laws.proofs.StrictLemmas.{steady, strict_lawful, strict_never_waits};

    ghost view = { λ d. record {
      policy = policy_of Q.says d;
      limits = limit_in Q.most d.rows;
      link_rate = None;
      fixed = [];
      lists = list_in d.rows;
      represents = λ h. Represents Q.stands Q.says d h;
      due = λ clock now. due_of d;
      given = 0;
      moment = 0;
      ended = 0;
    } };

    fn room(&self) -> u32 {
        self.rows.room()
    }

    fn offer(
        &mut self,
        ticket: Ticket,
        class: u32,
        len: u32,
        prec: u8,
        now: u64,
        words: &mut Words,
    ) -> Verdict {
        let entry = Entry { ticket, len, prec };
        self.rows.offer(class, entry, now, words)
    }

    fn next(&mut self, _now: u64, _clock: &LinkClock) -> Pick {
        head_of(&self.rows, self.class)
    }

    fn sent(&mut self, sending: Sending, _clock: &LinkClock) {
        self.rows.take(sending.class, sending.start);
    }

    ghost shows = { λ d h s. s.recorded.shown };

    ghost counts = { λ d h s. none_is_least (offered (unlabelled h)) };

    ghost moments = { λ d h s t l b. none_is_least t };

    ghost ends = { λ d h s r l. none_is_least (link r (unlabelled h)).free };

    ghost distinct = { λ d h s. holding_distinct d.class (true ∷ []) };

    ghost orderly = { λ d h s. s.orderly };

    ghost lawful = { λ d h s. strict_lawful (d.class ∷ []) Share (answering Q.says d.rows) };

    ghost steady = { λ d h s. steady (policy_of Q.says d) (strict_never_waits (d.class ∷ []) Share (answering Q.says d.rows)) };
}
