//! The choice by link sharing: which class goes where no head is sent by real time.
//!
//! The choice goes down from the root, to the active child of least virtual time among those on whose path a packet waits
//! within all upper limits. A class keeps the units sent in it and below it, and its virtual time is the first at which its
//! link-sharing curve, over all its activations, reaches them. The active children of each class stand in a list by
//! virtual time, and those that limits hold back in one by the moment from which a leaf below may be served; `build` takes all
//! memory. Moments are nanoseconds, lengths bytes. The source is Stoica, Zhang and Ng, "A Hierarchical Fair Service Curve
//! Algorithm for Link-Sharing, Real-Time and Priority Services", SIGCOMM 1997; upper limits are those of altq.conf(5).
#![tactic(auto)]

ghost use Rattle.std.specs.Prelude.{◌≡◌, ◌==◌, ◌<◌, ◌≤◌, ◌^◌, ◌&&◌, ◌||◌, ◌∷◌, [], ℕ, not, List, Option, None, Some, Bool, true, false, length, slice_get, IfOk, if◌then◌else◌};
ghost use Rattle.play_base.specs.Units.{units};
ghost use Rattle.ranking.specs.Order.{IsOrderOf, is_in};
ghost use Rattle.hfsc_model.specs.declared.HfscClass.{HfscClass};
ghost use Rattle.hfsc_model.specs.Event.{HfscHistory, Enqueued, Sent};
ghost use Rattle.hfsc_model.specs.Tree.{is_child};
ghost use Rattle.hfsc_model.specs.Share.{active, virtual_time};
ghost use Rattle.hfsc_model.specs.Limit.{share_pick};
ghost use Rattle.hfsc_groups.specs.Classes.{AreClasses, AreSmall, IsSoonest, waits_in};
ghost use Rattle.hfsc_groups.specs.Node.{AreParentsFirst, AreLimitsBy, time_in};
ghost use Rattle.hfsc_groups.specs.Group.{AreRanked, GroupsHold, MayRank, ranked_in};
ghost use Rattle.hfsc_share.specs.Walk.{IsLeafThat, IsOpenIn, IsStep, Walks, has_ranked, start_among, start_below};

use hfsc_groups::{Group, Node, groups_of, has_come, nodes_of, rank};
use hfsc_model::HfscClass;
use play_base::{NoMemory, units};
use std::alloc::Global;

mod laws;

pub use laws::{picked_leaves_may_share, waiting_leaves_wake_once};

/// The most levels of a tree.
const LEVELS: u32 = 8;

/// The classes of an interface in the order of the file, with what sharing keeps of them.
///
/// Contracts say for which classes and which history of kept packets and sendings a value stands.
#[derive(Drop)]
pub struct Shares {
    nodes: Vec<Node>,
    groups: Vec<Group>,
    woken: u64,
    ghost groups_hold: { GroupsHold nodes.items groups.items },
    ghost parents_first: { AreParentsFirst nodes.items },
    ghost limits_by: { AreLimitsBy woken nodes.items },
}

impl Shares {
    ghost use Rattle.hfsc_share.specs.Shares.{Represents, NoneIsActive, IsSameBut, IsLeafAt, classes_of, down, is_active_at, last_wake, parent_at, pick_now, soonest_now, order_at};

    /// The classes without a packet, at most 256.
    pub fn build(alloc: Global, classes: &[HfscClass]) -> Result<Shares, NoMemory>
        requires count { length classes.now ≤ 256 }
        requires classes { AreClasses classes.now }
        ensures stands { IfOk result (λ s. Represents s classes.now []) }
        ensures new { IfOk result (NoneIsActive classes.now) }
    {
        let nodes = nodes_of(alloc, classes)?;
        let groups = groups_of(alloc, classes)?;
        Ok(Shares {
            nodes,
            groups,
            woken: 0,
        })
    }

    /// A packet was kept at the moment `at` in a leaf in which nothing waited. No earlier `wake` had a later `at`. What
    /// is claimed of histories is claimed while totals are at most 2^99 and virtual times at most 2^79. It takes a time
    /// that grows with the levels of the tree, and on each with the logarithm of the siblings, which it moves.
    #[inline(always)]
    pub fn wake(&mut self, leaf: u32, at: u64)
        requires class { leaf < classes_of self.old }
        requires leaf { IsLeafAt self.old leaf }
        requires idle { is_active_at self.old leaf ≡ false }
        requires later { last_wake self.old ≤ at }
        ensures stands { (cs : List HfscClass) (h : HfscHistory) (len : ℕ) → Represents self.old cs h
            → AreSmall cs (Enqueued leaf at len ∷ h) → Represents self.new cs (Enqueued leaf at len ∷ h) }
        ensures woken { last_wake self.new ≡ at }
        ensures active { is_active_at self.new leaf ≡ true }
        ensures others { IsSameBut leaf self.old self.new }
    {
        self.woken = at;
        let mut next = self.wake_class(leaf);
        while let Some(class) = next {
            next = self.wake_class(class);
        }
    }

    /// The head of a leaf, of `len` bytes, was sent, by either rule; `empty` says that nothing waits there now. What is
    /// claimed of histories, and the time that it takes, is as with `wake`.
    pub fn served(&mut self, leaf: u32, len: u32, empty: bool)
        requires class { leaf < classes_of self.old }
        requires leaf { IsLeafAt self.old leaf }
        requires waits { is_active_at self.old leaf ≡ true }
        ensures stands { (cs : List HfscClass) (h : HfscHistory) (real : Bool) (start : ℕ) → Represents self.old cs h
            → waits_in (Sent leaf len real start ∷ h) leaf ≡ not empty
            → AreSmall cs (Sent leaf len real start ∷ h) → Represents self.new cs (Sent leaf len real start ∷ h) }
        ensures woken { last_wake self.new ≡ last_wake self.old }
        ensures active { is_active_at self.new leaf ≡ not empty }
        ensures others { IsSameBut leaf self.old self.new }
    {
        let amount = units(u64::from(len));
        let mut next = self.serve_class(leaf, amount, !empty);
        while let Some(class) = next {
            next = self.serve_class(class, amount, false);
        }
    }

    /// The leaf to send by share at `now`, no earlier than the last wake: down from the root by the least virtual time among
    /// the children below which a packet waits on a path that is open, a tie going to the class that stands earlier in the
    /// file. `None` comes exactly where no active leaf may be served at `now`. On each level it looks at the children in
    /// that order up to the first that may.
    #[inline(always)]
    pub fn pick(&self, now: u64) -> Option<u32>
        ensures pick { (cs : List HfscClass) (h : HfscHistory) → Represents self.now cs h → last_wake self.now ≤ now
            → result ≡ share_pick cs h now }
        ensures is { result ≡ pick_now self.now now }
    {
        self.picked(u128::from(now))
    }

    /// The least moment, not before the last wake, from which the limits let some active leaf be served. `None` comes
    /// exactly where no leaf is active. Constant time.
    pub fn soonest(&self) -> Option<u128>
        ensures least { (cs : List HfscClass) (h : HfscHistory) → Represents self.now cs h → IsSoonest cs h (last_wake self.now) result }
        ensures is { result ≡ soonest_now self.now }
    {
        self.soonest_moment()
    }

    /// The active children of a class in the order of their virtual times, a tie in the order of the file. Constant time.
    pub fn ranked(&self, parent: u32) -> &[u32]
        requires { parent < classes_of self.now }
        ensures order { (cs : List HfscClass) (h : HfscHistory) → Represents self.now cs h
            → IsOrderOf (λ c. Some (virtual_time cs h c)) (λ c. is_child cs parent c && active cs h c) result.now }
        ensures is { result.now ≡ order_at self.now parent }
    {
        self.groups[parent as usize].ranked()
    }

    /// A packet was kept below a class: the class becomes active if it was not, and opens anew. Answers its parent, or nothing
    /// where the class was active and open already, or opens as before: then all above it is as it was.
    #[inline(always)]
    fn wake_class(&mut self, class: u32) -> Option<u32>
        requires { class < classes_of self.old }
        ensures walks { (cs : List HfscClass) (h : HfscHistory) (leaf len : ℕ) → IsLeafThat cs h leaf false
            → Walks cs h (Enqueued leaf (last_wake self.old) len ∷ h) (last_wake self.old) leaf (Some class) self.old.nodes.items
            → Walks cs h (Enqueued leaf (last_wake self.old) len ∷ h) (last_wake self.old) leaf result self.new.nodes.items }
        ensures step { IsStep class self.old.nodes.items self.new.nodes.items }
        ensures active { is_active_at self.new class ≡ true }
        ensures woken { last_wake self.new ≡ last_wake self.old }
        ensures parent { (p : ℕ) → result ≡ Some p → parent_at self.old class ≡ Some p }
    {
        if !self.is_active(class) {
            return self.begin_in(class);
        }
        if self.is_open(class) {
            return None;
        }
        self.reopen_in(class)
    }

    /// Whether a class is active, and was open at the last event.
    fn is_open(&self, class: u32) -> bool
        requires { class < classes_of self.now }
        ensures { result ≡ true → IsOpenIn self.now.nodes.items class }
    {
        let node = &self.nodes[class as usize];
        node.is_active() && node.opens() == Some(0)
    }

    /// Whether a packet waits in a class or below it.
    #[inline(always)]
    fn is_active(&self, class: u32) -> bool
        requires { class < classes_of self.now }
        ensures { result ≡ is_active_at self.now class }
    {
        self.nodes[class as usize].is_active()
    }

    /// What `wake_class` does of a class that is not active.
    #[inline(always)]
    fn begin_in(&mut self, class: u32) -> Option<u32>
        requires { class < classes_of self.old }
        ensures walks { (cs : List HfscClass) (h : HfscHistory) (leaf len : ℕ) → IsLeafThat cs h leaf false
            → Walks cs h (Enqueued leaf (last_wake self.old) len ∷ h) (last_wake self.old) leaf (Some class) self.old.nodes.items
            → Walks cs h (Enqueued leaf (last_wake self.old) len ∷ h) (last_wake self.old) leaf result self.new.nodes.items }
        ensures step { IsStep class self.old.nodes.items self.new.nodes.items }
        ensures active { is_active_at self.new class ≡ true }
        ensures woken { last_wake self.new ≡ last_wake self.old }
        ensures parent { (p : ℕ) → result ≡ Some p → parent_at self.old class ≡ Some p }
    {
        let start = self.start_of(class);
        let node = &mut self.nodes[class as usize];
        let was = node.is_active();
        node.wake(self.woken, start);
        node.reopen(&self.groups[class as usize], self.woken);
        rank(&mut self.groups, class, was, node);
        node.parent()
    }

    /// What `wake_class` does of a class that is active, and was not open already.
    #[inline(never)]
    fn reopen_in(&mut self, class: u32) -> Option<u32>
        requires class { class < classes_of self.old }
        requires active { is_active_at self.old class ≡ true }
        ensures walks { (cs : List HfscClass) (h : HfscHistory) (leaf len : ℕ) → IsLeafThat cs h leaf false
            → Walks cs h (Enqueued leaf (last_wake self.old) len ∷ h) (last_wake self.old) leaf (Some class) self.old.nodes.items
            → Walks cs h (Enqueued leaf (last_wake self.old) len ∷ h) (last_wake self.old) leaf result self.new.nodes.items }
        ensures step { IsStep class self.old.nodes.items self.new.nodes.items }
        ensures active { is_active_at self.new class ≡ true }
        ensures woken { last_wake self.new ≡ last_wake self.old }
        ensures parent { (p : ℕ) → result ≡ Some p → parent_at self.old class ≡ Some p }
    {
        let node = &mut self.nodes[class as usize];
        let opens = node.opens();
        node.reopen(&self.groups[class as usize], self.woken);
        let same = node.opens() == opens;
        rank_unless(same, &mut self.groups, class, node);
        parent_unless(same, node)
    }

    /// The virtual time to take where a class becomes active.
    fn start_of(&self, class: u32) -> u128
        requires { class < classes_of self.now }
        ensures { result ≡ start_below self.now.nodes.items self.now.groups.items (parent_at self.now class) }
    {
        let node = &self.nodes[class as usize];
        self.start_below(node.parent())
    }

    /// Units were sent below a class: `waits` says that a packet waits in itself. Answers its parent.
    #[inline(always)]
    fn serve_class(&mut self, class: u32, amount: u128, waits: bool) -> Option<u32>
        requires class { class < classes_of self.old }
        requires amount { amount < 2 ^ 100 }
        ensures walks { (cs : List HfscClass) (h : HfscHistory) (leaf len : ℕ) (real : Bool) (start : ℕ) → IsLeafThat cs h leaf true
            → amount ≡ units len → waits ≡ ((leaf == class) && waits_in (Sent leaf len real start ∷ h) leaf)
            → Walks cs h (Sent leaf len real start ∷ h) (last_wake self.old) leaf (Some class) self.old.nodes.items
            → Walks cs h (Sent leaf len real start ∷ h) (last_wake self.old) leaf result self.new.nodes.items }
        ensures step { IsStep class self.old.nodes.items self.new.nodes.items }
        ensures active { IsLeafAt self.old class → is_active_at self.new class ≡ (is_active_at self.old class && waits) }
        ensures woken { last_wake self.new ≡ last_wake self.old }
        ensures parent { result ≡ parent_at self.old class }
    {
        let waits = self.waits_below(class, waits);
        let node = &mut self.nodes[class as usize];
        let was = node.is_active();
        node.serve(amount, waits);
        node.reopen(&self.groups[class as usize], self.woken);
        rank(&mut self.groups, class, was, node);
        node.parent()
    }

    /// The virtual time to take among the children of a parent: the middle of the least and the greatest of those that are
    /// active, rounded down, or where none is the high mark.
    fn start_below(&self, parent: Option<u32>) -> u128
        requires { (p : ℕ) → parent ≡ Some p → p < classes_of self.now }
        ensures { result ≡ start_below self.now.nodes.items self.now.groups.items parent }
    {
        match parent {
            None => 0,
            Some(parent) => self.start_in(&self.groups[parent as usize]),
        }
    }

    /// The same of a group of children.
    fn start_in(&self, group: &Group) -> u128
        requires { (c : ℕ) → is_in c (ranked_in group.now) ≡ true → c < classes_of self.now }
        ensures { result ≡ start_among self.now.nodes.items group.now (ranked_in group.now) }
    {
        let ranked = group.ranked();
        match (ranked.first(), ranked.last()) {
            (Some(first), Some(last)) => (self.time_of(*first) + self.time_of(*last)) / 2,
            _ => group.high(),
        }
    }

    /// The virtual time of a class.
    fn time_of(&self, class: u32) -> u128
        requires { class < classes_of self.now }
        ensures is { result ≡ time_in (slice_get self.now.nodes.items class) }
        ensures most { result ≤ 2 ^ 79 }
    {
        self.nodes[class as usize].time()
    }

    /// A packet waits in a class itself, which `here` says, or below it: a child is active.
    fn waits_below(&self, class: u32, here: bool) -> bool
        requires { class < classes_of self.now }
        ensures { result ≡ (here || has_ranked (slice_get self.now.groups.items class)) }
    {
        here || !self.groups[class as usize].ranked().is_empty()
    }

    /// The leaf to send, where the root is open.
    #[inline(always)]
    fn picked(&self, now: u128) -> Option<u32>
        ensures { result ≡ pick_now self.now now }
    {
        let root = self.nodes.first()?;
        if root.is_active() && has_come(root.opens(), now) {
            return Some(self.leaf_below(now));
        }
        None
    }

    /// The moment from which the root opens, or the last wake if that is later.
    fn soonest_moment(&self) -> Option<u128>
        ensures { result ≡ soonest_now self.now }
    {
        let root = self.nodes.first()?;
        if !root.is_active() {
            return None;
        }
        let opens = root.opens()?;
        Some(opens.max(u128::from(self.woken)))
    }

    /// Down from the root, on each level by the first child that is open.
    #[inline(always)]
    fn leaf_below(&self, now: u128) -> u32
        requires { 0 < classes_of self.now }
        ensures { result ≡ down 8 self.now.groups.items now 0 }
    {
        let mut class = 0;
        for _ in 0..LEVELS {
            match self.groups[class as usize].first_open(now) {
                None => return class,
                Some(child) => class = child,
            }
        }
        class
    }
}

/// Puts an active class anew into the lists of its parent, unless it is the `same` to it as before: then they stay.
fn rank_unless(same: bool, groups: &mut Vec<Group>, class: u32, node: &Node)
    requires change { MayRank class true node.now groups.old.items }
    requires same { same ≡ true → AreRanked class node.now groups.old.items groups.old.items }
    ensures { AreRanked class node.now groups.old.items groups.new.items }
{
    if !same {
        rank(groups, class, true, node);
    }
}

/// The parent of a class, unless it is the `same` to it as before.
fn parent_unless(same: bool, node: &Node) -> Option<u32>
    ensures { result ≡ (if same then None else node.now.parent) }
{
    if same { None } else { node.parent() }
}
