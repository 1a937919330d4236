//! The discipline.
ghost use Rattle.std.specs.Prelude.{◌≡◌, ◌≤◌, ◌<◌, ◌+◌, [], ℕ, All, IfOk, length, map, slice_get};
ghost use Rattle.std.specs.Option.{option_map};
ghost use Rattle.class_rows.specs.Rows.{IsNewQueue, limit_at, limits_of, list_in};
ghost use Rattle.leaf_queue.specs.Queue.{by_queues};
ghost use Rattle.hfsc_model.specs.Tree.{is_leaf, numbers};
ghost use Rattle.hfsc_policy.specs.Events.{is_real};
ghost use Rattle.hfsc_policy.specs.Policy.{hfsc_policy};
ghost use Rattle.hfsc_core.specs.Chooser.{MayBuild};
ghost use Rattle.hfsc_core.specs.Hfsc.{HfscView, HfscStands, IsHfsc, MayAsk, due_of, pick_of, policy_of, send_head};

use crate::HfscClass;
use crate::chooser::{Chooser, Chosen};
use crate::leaves::leaves_of;
use class_rows::ClassQueues;
use discipline::{Discipline, Pick, Rule, Sending, Verdict};
use leaf_queue::{Entry, QueueRule, Words};
use link_clock::LinkClock;
use play_base::{NoMemory, Ticket};
use std::alloc::Global;
use std::marker::Model;

/// A tree of classes that shares a link by HFSC. Its leaves are the queue classes.
#[derive(Drop)]
pub struct Hfsc<Q: QueueRule + Drop> {
    chooser: Chooser,
    rows: ClassQueues<Q>,
    kept: u32,
}

impl<Q: QueueRule + Drop> Model for Hfsc<Q> {
    ghost Value = { HfscView Q };

    ghost view = { λ d. record { chooser = d.chooser; rows = d.rows; kept = d.kept } };

    ghost invariant = { λ d. IsHfsc d.chooser d.rows d.kept };
}

// The head of a class's list is sent by a rule.
#[inline(always)]
fn head_by<Q: QueueRule + Drop>(rows: &ClassQueues<Q>, class: u32, rule: Rule) -> Pick
    requires low { rows.now.first ≤ class }
    requires high { class < rows.now.first + length rows.now.queues }
    ensures { result ≡ send_head class rule (list_in rows.now class) }
{
    match rows.head(class) {
        None => Pick::Empty,
        Some(head) => Pick::Send {
            ticket: head.ticket,
            class,
            len: head.len,
            rule,
        },
    }
}

// What is due where this is chosen.
#[inline(always)]
fn pick_of<Q: QueueRule + Drop>(rows: &ClassQueues<Q>, chosen: Chosen) -> Pick
    requires { MayAsk rows.now chosen }
    ensures { result ≡ pick_of (list_in rows.now) chosen }
{
    match chosen {
        Chosen::Real(class) => head_by(rows, class, Rule::RealTime),
        Chosen::Shared(class) => head_by(rows, class, Rule::Share),
        Chosen::Later(moment) => Pick::Wait {
            till: moment as u64,
        },
        Chosen::Nothing => Pick::Empty,
    }
}

// Whether a sending by this rule counts for real time.
fn is_real(rule: Rule) -> bool
    ensures { result ≡ is_real rule }
{
    match rule {
        Rule::RealTime => true,
        Rule::Share | Rule::Own | Rule::Borrow => false,
    }
}

// The length of the head of a class's list.
fn head_len<Q: QueueRule + Drop>(rows: &ClassQueues<Q>, class: u32) -> Option<u32>
    requires low { rows.now.first ≤ class }
    requires high { class < rows.now.first + length rows.now.queues }
    ensures { result ≡ option_map (λ (x : Entry). x.len) (slice_get (list_in rows.now class) 0) }
{
    match rows.head(class) {
        None => None,
        Some(head) => Some(head.len),
    }
}

impl<Q: QueueRule + Drop> Hfsc<Q> {
    /// The classes of an interface, at most 256, in the order of the file, with one queue for each, which stands for nothing asked
    /// or told yet and holds 1 to 10,000 packets. The first class is the root; every other has a link-sharing curve whose second
    /// slope is at least 1, and a class with children has no real-time curve. Both slopes of a limit are at least 1,000 bits per
    /// second. Takes all the memory that it will ever take; `NoMemory` comes only when memory runs out.
    pub fn build(alloc: Global, classes: &[HfscClass], queues: Vec<Q>) -> Result<Hfsc<Q>, NoMemory>
        requires count { length classes.now ≤ 256 }
        requires classes { MayBuild classes.now }
        requires one_each { length queues.items ≡ length classes.now }
        requires queues { All (IsNewQueue Q.stands Q.most) queues.items }
        ensures empty { IfOk result (λ d. (⟦<Hfsc<Q> as Discipline>⟧.view d).represents []) }
        ensures policy { IfOk result (λ d. (⟦<Hfsc<Q> as Discipline>⟧.view d).policy ≡ hfsc_policy classes.now (by_queues 0 (map Q.says queues.items))) }
        ensures limits { IfOk result (λ d. (⟦<Hfsc<Q> as Discipline>⟧.view d).limits
            ≡ limit_at 0 (limits_of Q.most queues.items (map (is_leaf classes.now) (numbers classes.now)))) }
    {
        let chooser = Chooser::build(alloc, classes)?;
        let holds = leaves_of(alloc, classes)?;
        let rows = ClassQueues::build(alloc, 0, queues, holds)?;
        Ok(Hfsc {
            chooser,
            rows,
            kept: 0,
        })
    }
}

impl<Q: QueueRule + Drop> Discipline for Hfsc<Q> {
    ghost use Rattle.std.specs.Prelude.{[], None};
    ghost use Rattle.altq_model.specs.History.{unlabelled, offered};
    ghost use Rattle.altq_model.specs.Link.{link};
    ghost use Rattle.class_rows.specs.Rows.{limit_in, list_in, answering};
    ghost use Rattle.class_rows.proofs.RowLemmas.{none_is_least};
    ghost use Rattle.hfsc_policy.proofs.Lawful.{distinct, lawful, steady};
    ghost use Rattle.hfsc_core.specs.Chooser.{classes_of, woken_at};

    ghost view = { λ d. record {
      policy = policy_of Q.says d;
      limits = limit_in Q.most d.rows;
      link_rate = None;
      fixed = [];
      lists = list_in d.rows;
      represents = λ h. HfscStands Q.stands Q.says d h;
      due = λ clock now. due_of d now;
      given = d.kept;
      moment = woken_at d.chooser;
      ended = 0;
    } };

    fn room(&self) -> u32 {
        self.rows.room()
    }

    #[inline(always)]
    fn offer(
        &mut self,
        ticket: Ticket,
        class: u32,
        len: u32,
        prec: u8,
        now: u64,
        words: &mut Words,
    ) -> Verdict {
        let empty = self.rows.head(class).is_none();
        let entry = Entry { ticket, len, prec };
        let verdict = self.rows.offer(class, entry, now, words);
        if !verdict.is_kept() {
            return verdict;
        }
        self.chooser.kept(class, now, len, empty);
        self.kept += 1;
        verdict
    }

    #[inline(always)]
    fn next(&mut self, now: u64, _clock: &LinkClock) -> Pick {
        let chosen = self.chooser.chosen(now);
        pick_of(&self.rows, chosen)
    }

    #[inline(always)]
    fn sent(&mut self, sending: Sending, _clock: &LinkClock) {
        self.rows.take(sending.class, sending.start);
        let real = is_real(sending.rule);
        let head = head_len(&self.rows, sending.class);
        self.chooser.sent(sending.class, sending.len, real, head);
    }

    ghost shows = { λ d h s. s.recorded.shown };

    ghost counts = { λ d h s. s.counted };

    ghost moments = { λ d h s t l b. s.woken t l };

    ghost ends = { λ d h s r l. none_is_least (link r (unlabelled h)).free };

    ghost distinct = { λ d h s. distinct (classes_of d.chooser) (answering Q.says d.rows) };

    ghost orderly = { λ d h s. s.orderly };

    ghost lawful = { λ d h s. lawful (classes_of d.chooser) (answering Q.says d.rows) s.chooser.tree };

    ghost steady = { λ d h s. steady (classes_of d.chooser) (answering Q.says d.rows) s.chooser.tree };
}
