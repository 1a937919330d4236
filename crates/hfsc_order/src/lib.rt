//! The order in which HFSC shares a link, said of its definitions as properties: on each level the class with the least virtual time
//! goes on, and no virtual time ever falls. The functions do nothing: each states its law. The source is Stoica, Zhang and Ng, "A
//! Hierarchical Fair Service Curve Algorithm for Link-Sharing, Real-Time and Priority Services", SIGCOMM 1997.
#![tactic(auto)]

ghost use Rattle.std.specs.Prelude.{◌≤◌, ◌∷◌, ℕ, List, MatchOption};
ghost use Rattle.hfsc_model.specs.declared.HfscClass.{HfscClass};
ghost use Rattle.hfsc_model.specs.Event.{HfscEvent, HfscHistory};
ghost use Rattle.hfsc_model.specs.Limit.{share_pick};
ghost use Rattle.hfsc_model.specs.Share.{virtual_time};
ghost use Rattle.hfsc_policy.specs.Classes.{IsClassTree};
ghost use Rattle.hfsc_order.specs.Order.{AreBehind, HaveSlopes, IsSharePick, NoneMayShare};

mod one_leaf;
mod one_leaf_rows;
mod rows;

pub use one_leaf::{one_leaf_is_one_queue, one_leaf_is_sent_by_share};
pub use one_leaf_rows::worked_trees;
pub use rows::worked_orders;

/// The choice by share takes a leaf that waits and whose path is open, wherever there is one. On each level from the root down to
/// that leaf no active child on an open path has a lower virtual time than the one that was taken, and of those with the same
/// the one that stands first in the file was taken.
pub fn share_picks_have_the_least_virtual_times()
    ensures { (cs : List HfscClass) (h : HfscHistory) (now : ℕ) → IsClassTree cs
        → MatchOption (share_pick cs h now) (NoneMayShare cs h now) (IsSharePick cs h now) }
{}

/// Whatever happens, to whichever class, no virtual time falls, where each link-sharing curve reaches every amount: so none is
/// less than it was after any earlier part of the history.
pub fn virtual_times_never_fall()
    ensures step { (cs : List HfscClass) (e : HfscEvent) (h : HfscHistory) (c : ℕ) → HaveSlopes cs
        → virtual_time cs h c ≤ virtual_time cs (e ∷ h) c }
    ensures history { (cs : List HfscClass) (h : HfscHistory) (c : ℕ) → HaveSlopes cs → AreBehind cs c (virtual_time cs h c) h }
{}
