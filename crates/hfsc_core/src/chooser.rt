//! Both choices together.
ghost use Rattle.std.specs.Prelude.{◌≡◌, ◌≤◌, ◌<◌, ◌∷◌, [], ℕ, Bool, List, Option, IfOk, length, true};
ghost use Rattle.hfsc_model.specs.Event.{HfscHistory, Enqueued, Sent};
ghost use Rattle.hfsc_model.specs.Leaf.{leaf, is_waiting};
ghost use Rattle.hfsc_model.specs.Tree.{reals};
ghost use Rattle.hfsc_policy.specs.Heads.{IsSized, kept_in};
ghost use Rattle.hfsc_policy.specs.Policy.{earlier_of};
ghost use Rattle.hfsc_core.specs.Chooser.{MayBuild, MayKeep, MayLeave, Represents, chosen_now, classes_of, woken_at};

use hfsc_eligible::{Eligible, waiting_classes_open_once};
use hfsc_model::HfscClass;
use hfsc_share::{Shares, waiting_leaves_wake_once};
use play_base::NoMemory;
use service_curve::Curve;
use std::alloc::Global;

/// What is chosen at a moment.
#[derive(Clone, Copy)]
pub enum Chosen {
    /// The head of this leaf is sent by real time.
    Real(u32),
    /// The head of this leaf is sent by share.
    Shared(u32),
    /// Packets wait, and the first leaf may send at this moment, in nanoseconds.
    Later(u128),
    /// No packet waits.
    Nothing,
}

/// The classes of an interface, with what both choices keep of them.
#[derive(Drop)]
pub struct Chooser {
    classes: Vec<HfscClass>,
    eligible: Eligible,
    shares: Shares,
}

impl Chooser {
    /// The classes without a packet. `NoMemory` comes only when memory runs out.
    pub fn build(alloc: Global, classes: &[HfscClass]) -> Result<Chooser, NoMemory>
        requires count { length classes.now ≤ 256 }
        requires classes { MayBuild classes.now }
        ensures stands { IfOk result (λ x. Represents x []) }
        ensures classes { IfOk result (λ x. classes_of x ≡ classes.now) }
        ensures woken { IfOk result (λ x. woken_at x ≡ 0) }
    {
        let curves = reals_of(alloc, classes)?;
        let eligible = Eligible::build(alloc, &curves)?;
        let shares = Shares::build(alloc, classes)?;
        let classes = classes.to_vec(alloc)?;
        Ok(Chooser {
            classes,
            eligible,
            shares,
        })
    }

    /// A packet of `len` bytes was kept at the moment `at` in a leaf, in which nothing waited where it was `empty`.
    #[inline(always)]
    pub fn kept(&mut self, class: u32, at: u64, len: u32, empty: bool)
        requires { (h : HfscHistory) × MayKeep self.old h class at len empty }
        ensures stands { (h : HfscHistory) → MayKeep self.old h class at len empty → Represents self.new (Enqueued class at len ∷ h) }
        ensures classes { classes_of self.new ≡ classes_of self.old }
        ensures woken { woken_at self.new ≤ at }
    {
        if !empty {
            waiting_classes_open_once();
            waiting_leaves_wake_once();
            return;
        }
        self.eligible.open(class, at, len);
        self.shares.wake(class, at);
    }

    /// The head of a leaf, of `len` bytes, was sent, by real time or else by share; `head` is the length of the next one.
    #[inline(always)]
    pub fn sent(&mut self, class: u32, len: u32, real: bool, head: Option<u32>)
        requires { (h : HfscHistory) × MayLeave self.old h class len head }
        ensures stands { (h : HfscHistory) (start : ℕ) → MayLeave self.old h class len head → Represents self.new (Sent class len real start ∷ h) }
        ensures classes { classes_of self.new ≡ classes_of self.old }
        ensures woken { woken_at self.new ≡ woken_at self.old }
    {
        self.eligible.sent(class, len, real, head);
        self.shares.served(class, len, head.is_none());
    }

    /// What is chosen at `now`: by real time where some head is eligible, else by share where some path is open, else the least
    /// moment at which a leaf that waits may send.
    #[inline(always)]
    pub fn chosen(&self, now: u64) -> Chosen
        ensures { result ≡ chosen_now self.now now }
    {
        if let Some(class) = self.eligible.pick(now) {
            return Chosen::Real(class);
        }
        if let Some(class) = self.shares.pick(now) {
            return Chosen::Shared(class);
        }
        match earlier_of(self.eligible.soonest(), self.shares.soonest()) {
            None => Chosen::Nothing,
            Some(moment) => Chosen::Later(moment),
        }
    }
}

/// The earlier of two moments; `None` means never, and is later than every moment.
fn earlier_of(one: Option<u128>, other: Option<u128>) -> Option<u128>
    ensures { result ≡ earlier_of one other }
{
    match (one, other) {
        (None, other) => other,
        (Some(one), None) => Some(one),
        (Some(one), Some(other)) => Some(one.min(other)),
    }
}

/// The real-time curves of classes.
fn reals_of(alloc: Global, classes: &[HfscClass]) -> Result<Vec<Option<Curve>>, NoMemory>
    ensures { IfOk result (λ curves. curves.items ≡ reals classes.now) }
{
    let mut curves = Vec::with_capacity(alloc, classes.len())?;
    for class in classes {
        curves.push(class.real)?;
    }
    Ok(curves)
}
