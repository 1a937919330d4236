// What holds of every history of CBQ. The function does nothing: it states the law.
ghost use Rattle.std.specs.Prelude.{◌≡◌, ◌<◌, ℕ, List};
ghost use Rattle.altq_model.specs.History.{Event, LabelledEvent, Sending, unlabelled};
ghost use Rattle.cbq_model.specs.Capped.{KeepsItsRate};
ghost use Rattle.cbq_model.specs.Tree.{class_of};
ghost use Rattle.cbq_rounds.specs.Kept.{IsOwnStretch};

use crate::Cbq;
use discipline::Discipline;
use leaf_queue::QueueRule;

/// In each history that CBQ stands for, a class without children that is not the root keeps to its rate while it does not borrow: within
/// each stretch of such sendings it is at most one burst and one packet ahead of 32/31 of its rate.
pub fn classes_keep_their_rates<Q: QueueRule + Drop>(cbq: &Cbq<Q>)
    ensures { (h : List LabelledEvent) (c : ℕ) (last : Sending) (between : List Event) (first : Sending) → (⟦<Cbq<Q> as Discipline>⟧.view cbq.now).represents h
        → 0 < (class_of cbq.now.shares.tree c).rate → IsOwnStretch cbq.now.shares.tree c (unlabelled h) last between first
        → KeepsItsRate cbq.now.shares.tree c last between first }
{}
