//! HFSC of one leaf, without real-time curves and without upper limits, is one queue. The functions do nothing: each states its law. The
//! source is Stoica, Zhang and Ng, "A Hierarchical Fair Service Curve Algorithm for Link-Sharing, Real-Time and Priority Services",
//! SIGCOMM 1997.

ghost use Rattle.std.specs.Prelude.{◌≡◌, ℕ, List, None, Some, true, false};
ghost use Rattle.altq_model.specs.Policies.{Answering};
ghost use Rattle.hfsc_model.specs.declared.HfscClass.{HfscClass};
ghost use Rattle.hfsc_model.specs.Choice.{by_share, choice};
ghost use Rattle.hfsc_model.specs.Event.{HfscHistory};
ghost use Rattle.hfsc_model.specs.Leaf.{is_waiting, leaf};
ghost use Rattle.hfsc_model.specs.RealTime.{NoneIsEligible};
ghost use Rattle.hfsc_model.specs.Tree.{reals};
ghost use Rattle.hfsc_policy.specs.Classes.{IsClassTree};
ghost use Rattle.hfsc_policy.specs.Policy.{hfsc_policy};
ghost use Rattle.hfsc_order.specs.Queue.{IsOneQueue, queue_of};

/// The one leaf is chosen by share at every moment at which a packet waits in it, and nothing is chosen while none does: no head is ever
/// eligible, and no virtual time and no opening matters.
#[tactic(auto, using(crate::proofs::Policies::waits_by_share, crate::proofs::Policies::waits_for_none, crate::proofs::Policies::none_eligible))]
pub fn one_leaf_is_sent_by_share()
    ensures waits { (cs : List HfscClass) (l : ℕ) (h : HfscHistory) (now : ℕ) → IsClassTree cs → IsOneQueue cs l
        → is_waiting (leaf h l).waiting ≡ true → choice cs h now ≡ Some (by_share l) }
    ensures none_waits { (cs : List HfscClass) (l : ℕ) (h : HfscHistory) (now : ℕ) → IsClassTree cs → IsOneQueue cs l
        → is_waiting (leaf h l).waiting ≡ false → choice cs h now ≡ None }
    ensures none_eligible { (cs : List HfscClass) (l : ℕ) (h : HfscHistory) (now : ℕ) → IsOneQueue cs l → NoneIsEligible (reals cs) h now }
{}

/// So the policy of HFSC is that of one queue there, whatever the queues answer: after every list of events it gives the same moments and
/// the same picks.
pub fn one_leaf_is_one_queue()
    ensures { (cs : List HfscClass) (l : ℕ) (answer : Answering) → IsClassTree cs → IsOneQueue cs l → hfsc_policy cs answer ≡ queue_of l answer }
{}
