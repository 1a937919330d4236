//! A discipline that is watched.
ghost use Rattle.std.specs.Prelude.{◌≡◌, ◌≤◌, ◌↔◌, [], ℕ, List, IfOk, IsNone, Some, length, option_map, slice_get};
ghost use Rattle.altq_model.specs.History.{LabelledEvent, unlabelled};
ghost use Rattle.hfsc_order.specs.Order.{HaveSlopes};
ghost use Rattle.hfsc_policy.specs.Classes.{IsClassTree};
ghost use Rattle.hfsc_policy.specs.Events.{hfsc_history};
ghost use Rattle.share_gaps.specs.declared.siblings.Siblings.{Siblings};
ghost use Rattle.share_gaps.specs.Rows.{rows};
ghost use Rattle.share_gaps.specs.Watching.{gap_after};
ghost use Rattle.share_report.specs.Report.{IsReported, IsWithinBound, gaps_after};
ghost use Rattle.share_report.specs.Watched.{IsHfscOver, classes_in};

use discipline::{Discipline, Pick, Sending, Verdict};
use hfsc_model::HfscClass;
use leaf_queue::Words;
use link_clock::LinkClock;
use play_base::{NoMemory, Ticket};
use share_gaps::{Gap, Watch};
use std::alloc::Global;

/// No fewer than the pairs of siblings among 256 classes.
const MOST_PAIRS: u32 = 65_536;

/// A discipline, to which every call is handed on, and a watch over the siblings of its classes.
#[derive(Drop)]
pub struct Watched<D: Discipline + Drop> {
    inner: D,
    watch: Watch,
    kept: u32,
}

impl<D: Discipline + Drop> Watched<D> {
    /// Watches a discipline that shares by HFSC over a tree of at most 256 classes, to which nothing was offered yet. Takes all the
    /// memory that it will ever take; `NoMemory` comes only when memory runs out.
    pub fn build(alloc: Global, inner: D, classes: &[HfscClass]) -> Result<Watched<D>, NoMemory>
        requires count { length classes.now ≤ 256 }
        requires tree { IsClassTree classes.now }
        requires empty { (D.view inner).represents [] }
        requires hfsc { IsHfscOver classes.now (D.view inner).policy }
        ensures empty { IfOk result (λ d. (⟦<Watched<D> as Discipline>⟧.view d).represents []) }
        ensures policy { IfOk result (λ d. (⟦<Watched<D> as Discipline>⟧.view d).policy ≡ (D.view inner).policy) }
        ensures rate { IfOk result (λ d. (⟦<Watched<D> as Discipline>⟧.view d).link_rate ≡ (D.view inner).link_rate) }
        ensures classes { IfOk result (λ d. classes_in d ≡ classes.now) }
    {
        let watch = Watch::build(alloc, classes)?;
        Ok(Watched {
            inner,
            watch,
            kept: 0,
        })
    }

    /// The gap of a pair of siblings, by its row, over each history that the value stands for: the pairs stand in the order of the file
    /// of the first class, then of the second. `None` comes exactly past the last. There is a gap where both have linear curves: the
    /// greatest difference of their work, each by the rate of the other, over all stretches in which both stay active, by both rates,
    /// rounded up. There is a bound, 2·Δ + 2, where there is a gap and no class has an upper limit, or a real-time curve but for one
    /// that is 0 everywhere; no gap passes it. It takes a time that grows with the classes, and no
    /// memory.
    pub fn gaps(&self, row: u32) -> Option<Gap>
        ensures none { IsNone result ↔ (length (rows (classes_in self.now)) ≤ row) }
        ensures exact { (h : List LabelledEvent) → (⟦<Watched<D> as Discipline>⟧.view self.now).represents h
            → result ≡ option_map (gap_after (classes_in self.now) (hfsc_history (unlabelled h)))
            (slice_get (rows (classes_in self.now)) row) }
        ensures gap { (h : List LabelledEvent) (s : Siblings) → (⟦<Watched<D> as Discipline>⟧.view self.now).represents h
            → slice_get (rows (classes_in self.now)) row ≡ Some s
            → IsReported (classes_in self.now) (hfsc_history (unlabelled h)) s result }
        ensures fair { (h : List LabelledEvent) → (⟦<Watched<D> as Discipline>⟧.view self.now).represents h → HaveSlopes (classes_in self.now)
            → IsWithinBound result }
    {
        self.watch.gap(row)
    }

    /// In each history that the value stands for every gap is within its bound, if the second slope of each link-sharing curve below the
    /// root is at least 1. A law: the function does nothing.
    pub fn keeps_bounds(&self)
        ensures { (h : List LabelledEvent) → (⟦<Watched<D> as Discipline>⟧.view self.now).represents h → HaveSlopes (classes_in self.now) → (row : ℕ)
            → IsWithinBound (option_map (gap_after (classes_in self.now) (hfsc_history (unlabelled h))) (slice_get (rows (classes_in self.now)) row)) }
    {}

    /// The gaps of all pairs of siblings, in the order of their rows, over each history that the value stands for. The only error is
    /// want of memory.
    pub fn report(&self, alloc: Global) -> Result<Vec<Gap>, NoMemory>
        requires { length (classes_in self.now) ≤ 256 }
        ensures { IfOk result (λ gaps. (h : List LabelledEvent) → (⟦<Watched<D> as Discipline>⟧.view self.now).represents h
            → gaps.items ≡ gaps_after (classes_in self.now) (hfsc_history (unlabelled h))) }
    {
        let mut gaps = Vec::new(alloc);
        for row in 0..MOST_PAIRS {
            let Some(gap) = self.gaps(row) else {
                return Ok(gaps);
            };
            gaps.push(gap)?;
        }
        Ok(gaps)
    }

    /// The classes that it watches. Does not allocate.
    pub fn classes(&self) -> &[HfscClass]
        ensures { result.now ≡ classes_in self.now }
    {
        self.watch.classes()
    }
}

impl<D: Discipline + Drop> Discipline for Watched<D> {
    ghost use Rattle.std.specs.Prelude.{[], max};
    ghost use Rattle.share_gaps.specs.Watching.{classes_of};
    ghost use Rattle.share_report.specs.Classes.{class_numbers};
    ghost use Rattle.share_report.specs.Watched.{BothStand};
    ghost use Rattle.std.proofs.Math.Nat.{max-le};

    ghost view = { λ d. record {
      policy = (D.view d.inner).policy;
      limits = (D.view d.inner).limits;
      link_rate = (D.view d.inner).link_rate;
      fixed = class_numbers (classes_of d.watch);
      lists = (D.view d.inner).lists;
      represents = λ h. BothStand (D.view d.inner).represents (D.view d.inner).policy d.watch d.kept h;
      due = λ clock now. (D.view d.inner).due clock now;
      given = max (D.view d.inner).given d.kept;
      moment = (D.view d.inner).moment;
      ended = (D.view d.inner).ended;
    } };

    fn room(&self) -> u32 {
        self.inner.room()
    }

    fn offer(
        &mut self,
        ticket: Ticket,
        class: u32,
        len: u32,
        prec: u8,
        now: u64,
        words: &mut Words,
    ) -> Verdict {
        let verdict = self.inner.offer(ticket, class, len, prec, now, words);
        if !verdict.is_kept() {
            return verdict;
        }
        self.watch.kept(class);
        self.kept += 1;
        verdict
    }

    fn next(&mut self, now: u64, clock: &LinkClock) -> Pick {
        self.inner.next(now, clock)
    }

    fn sent(&mut self, sending: Sending, clock: &LinkClock) {
        self.inner.sent(sending, clock);
        self.watch.sent(sending.class, sending.len);
    }

    ghost shows = { λ d h s. D.shows d.inner h s.stands };

    ghost counts = { λ d h s. max-le (D.counts d.inner h s.stands) s.counted };

    ghost moments = { λ d h s t l b. D.moments d.inner h s.stands t l b };

    ghost ends = { λ d h s r l. D.ends d.inner h s.stands r l };

    ghost distinct = { λ d h s. D.distinct d.inner h s.stands };

    ghost orderly = { λ d h s. D.orderly d.inner h s.stands };

    ghost lawful = { λ d h s. D.lawful d.inner h s.stands };

    ghost steady = { λ d h s. D.steady d.inner h s.stands };
}
