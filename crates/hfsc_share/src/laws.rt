//! Laws of link sharing.
ghost use Rattle.std.specs.Prelude.{◌≡◌, ◌∷◌, ℕ, List, Some, true};
ghost use Rattle.hfsc_model.specs.declared.HfscClass.{HfscClass};
ghost use Rattle.hfsc_model.specs.Event.{HfscHistory, Enqueued};
ghost use Rattle.hfsc_model.specs.Tree.{IsTree};
ghost use Rattle.hfsc_model.specs.Limit.{may_share, share_pick};
ghost use Rattle.hfsc_groups.specs.Classes.{waits_in};
ghost use Rattle.hfsc_share.specs.declared.Shares.{Shares};
ghost use Rattle.hfsc_share.specs.Shares.{Represents};

/// A packet that is kept in a class in which another waits changes nothing that a value holds: it stands for the longer
/// history as well.
pub fn waiting_leaves_wake_once()
    ensures { (s : Shares) (cs : List HfscClass) (h : HfscHistory) (class at len : ℕ) → Represents s cs h
        → waits_in h class ≡ true → Represents s cs (Enqueued class at len ∷ h) }
{}

/// What is picked by share is a leaf in which a packet waits, and its path is open.
#[tactic(auto, using(crate::proofs::Ends::picked_may))]
pub fn picked_leaves_may_share()
    ensures { (cs : List HfscClass) (h : HfscHistory) (now c : ℕ) → IsTree cs → share_pick cs h now ≡ Some c → may_share cs h now c ≡ true }
{}
