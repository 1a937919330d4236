//! Where link sharing alone decides, siblings of HFSC get their shares: laws of its histories, over the definitions alone. No class
//! has an upper limit, or a real-time curve but for one that is 0 everywhere. The functions do nothing: each states its law. The
//! source is Stoica, Zhang and Ng, "A Hierarchical Fair Service Curve Algorithm for Link-Sharing, Real-Time and Priority Services",
//! SIGCOMM 1997. Δ is the greatest step by which the longest packet sent may move the virtual time of a child of their parent.
#![tactic(auto)]

ghost use Rattle.std.specs.Prelude.{List};
ghost use Rattle.altq_model.specs.History.{Event};
ghost use Rattle.altq_model.specs.Policies.{Answering};
ghost use Rattle.discipline.specs.Moments.{IsOrderly};
ghost use Rattle.hfsc_model.specs.declared.HfscClass.{HfscClass};
ghost use Rattle.hfsc_model.specs.Event.{HfscEvent, HfscHistory};
ghost use Rattle.hfsc_order.specs.Order.{HaveSlopes};
ghost use Rattle.hfsc_policy.specs.Events.{hfsc_history};
ghost use Rattle.hfsc_policy.specs.Policy.{hfsc_policy};
ghost use Rattle.fair_shares.specs.Sharing.{AreChoices, ShareAlone};
ghost use Rattle.fair_shares.specs.Fairness.{AreClose, AreLittleAhead, IsFair, LeastNeverFalls, LeastRises};

mod rows;

pub use rows::gap_of_two_leaves;

/// The virtual times of two active siblings differ by at most Δ.
pub fn active_siblings_stay_close()
    ensures choices { (cs : List HfscClass) (h : HfscHistory) → ShareAlone cs → AreChoices cs h → AreClose cs h }
    ensures histories { (cs : List HfscClass) (answer : Answering) (h : List Event) → ShareAlone cs → IsOrderly (hfsc_policy cs answer) h
        → AreClose cs (hfsc_history h) }
{}

/// While a child of a class is active, one that is not is at most Δ ahead of the least active.
pub fn inactive_siblings_are_little_ahead()
    ensures choices { (cs : List HfscClass) (h : HfscHistory) → ShareAlone cs → AreChoices cs h → AreLittleAhead cs h }
    ensures histories { (cs : List HfscClass) (answer : Answering) (h : List Event) → ShareAlone cs → IsOrderly (hfsc_policy cs answer) h
        → AreLittleAhead cs (hfsc_history h) }
{}

/// Whatever happens, the least virtual time of the active children of a class does not fall while some child stays active: after an
/// event, and over a stretch of events. It asks only that each link-sharing curve reaches every amount.
pub fn least_virtual_times_never_fall()
    ensures step { (cs : List HfscClass) (e : HfscEvent) (h : HfscHistory) → HaveSlopes cs → LeastNeverFalls cs e h }
    ensures stretch { (cs : List HfscClass) (stretch h : HfscHistory) → HaveSlopes cs → LeastRises cs stretch h }
{}

/// Two siblings of linear curves, of the rates r and s, get their shares in every stretch of a history in which both stay active: the
/// units v and w that are sent in them or below them fulfil |v·s − w·r| ≤ (2·Δ + 2)·r·s.
pub fn shares_are_fair()
    ensures choices { (cs : List HfscClass) (h : HfscHistory) → ShareAlone cs → AreChoices cs h → IsFair cs h }
    ensures histories { (cs : List HfscClass) (answer : Answering) (h : List Event) → ShareAlone cs → IsOrderly (hfsc_policy cs answer) h
        → IsFair cs (hfsc_history h) }
{}
