//! One class: its curves, its total, whether it is active, its virtual time, and the moment from which it opens.
ghost use Rattle.std.specs.Prelude.{◌≡◌, ◌+◌, ◌<◌, ◌≤◌, ◌^◌, ◌∷◌, [], ℕ, List, Option, None, Some, max, min, true, false, is_some, IsSomeAnd, if◌then◌else◌};
ghost use Rattle.std.specs.Option.{ForSome};
ghost use Rattle.service_curve.specs.declared.Curve.{Curve};
ghost use Rattle.runtime_curve.specs.declared.Opening.{Opening};
ghost use Rattle.runtime_curve.specs.Opening.{opening};
ghost use Rattle.runtime_curve.specs.Deadline.{deadline, later_of};
ghost use Rattle.runtime_curve.specs.Running.{Represents, last_of};
ghost use Rattle.hfsc_model.specs.Share.{or_zero};
ghost use Rattle.hfsc_groups.specs.Curves.{CanCarry, RunningStands, IsBy, IsUpTo, IsOpen, last_in, limit_opens, share_of, since};
ghost use Rattle.hfsc_groups.specs.Classes.{IsClass};

use crate::group::Group;
use hfsc_model::HfscClass;
use runtime_curve::Running;
use service_curve::Curve;

/// Totals saturate here; no play reaches it.
const MOST_UNITS: u128 = 1 << 99;

/// Virtual times saturate here; no play reaches it.
const MOST_TIME: u128 = 1 << 79;

/// A class: its parent; its link-sharing curve over its activations, and its limit over the arrivals that made it active;
/// the units sent in it and below it; whether it is active; its virtual time; and the moment from which a packet waits on
/// a path that is open up to it.
#[derive(Clone, Copy)]
pub struct Node {
    // What each sending reads and writes stands together.
    parent: Option<u32>,
    active: bool,
    time: u128,
    total: u128,
    opens: Option<u128>,
    share: Option<Running>,
    limit: Option<Running>,
    ghost total_small: { total ≤ 2 ^ 99 },
    ghost time_small: { time ≤ 2 ^ 79 },
    ghost share_by: { IsBy time share },
    ghost share_up_to: { IsUpTo total share },
    ghost share_open: { IsOpen active share },
    ghost limit_up_to: { IsUpTo total limit },
    ghost limit_open: { IsOpen active limit },
}

impl Node {
    ghost use Rattle.hfsc_groups.specs.Group.{first_moment};
    ghost use Rattle.hfsc_groups.specs.Node.{IsNewNode, IsActivated, IsAwake, IsServed, IsReopened};

    /// A class without a packet.
    pub fn new(class: &HfscClass) -> Node
        requires { IsClass class.now }
        ensures { IsNewNode class.now result }
    {
        Node {
            parent: class.parent,
            active: false,
            time: 0,
            total: 0,
            opens: None,
            share: running_of(share_of(class)),
            limit: running_of(class.limit),
        }
    }

    /// A packet that arrived at a moment waits in the class or below it: the class is active, or becomes so with a virtual
    /// time of at least `start`.
    #[inline(always)]
    pub fn wake(&mut self, at: u64, start: u128)
        requires { IsBy at self.old.limit }
        ensures { IsAwake at start self.old self.new }
    {
        if !self.active {
            self.activate(at, start);
        }
    }

    /// The class becomes active with a packet that arrived at a moment, and takes a virtual time of at least `start`.
    #[inline(always)]
    fn activate(&mut self, at: u64, start: u128)
        requires { IsBy at self.old.limit }
        ensures { IsActivated at start self.old self.new }
    {
        let time = self.time.max(start).min(MOST_TIME);
        begin(&mut self.share, time, self.total);
        begin(&mut self.limit, u128::from(at), self.total);
        self.active = true;
        self.time = time;
    }

    /// Units were sent in the class or below it, which stays active where a packet waits.
    #[inline(always)]
    pub fn serve(&mut self, amount: u128, waits: bool)
        requires { amount < 2 ^ 100 }
        ensures { IsServed amount waits self.old self.new }
    {
        let total = (self.total + amount).min(MOST_UNITS);
        self.time = self.time_at(total);
        self.total = total;
        self.active = self.active && waits;
    }

    /// The virtual time with a total that is not less.
    #[inline(always)]
    fn time_at(&self, total: u128) -> u128
        requires more { self.now.total ≤ total }
        requires most { total ≤ 2 ^ 99 }
        ensures later { self.now.time ≤ result }
        ensures most { result ≤ 2 ^ 79 }
        ensures same { total ≡ self.now.total → result ≡ self.now.time }
        ensures none { self.now.share ≡ None → result ≡ self.now.time }
        ensures grown { self.now.active ≡ true → self.now.total < total → (s : Curve) (os : List Opening) → RunningStands self.now.share (Some s) os
            → result ≡ min (max self.now.time (or_zero (deadline s os total))) (2 ^ 79) }
    {
        match &self.share {
            Some(share) if self.active && self.total < total => time_by(share, self.time, total),
            _ => self.time,
        }
    }

    /// The class opens from the moment from which its limit lets it be served, or from the first below it where this is later. One
    /// that is not after `last`, the last wake, counts as 0: it has come. Where it is not active the moment stays.
    #[inline(always)]
    pub fn reopen(&mut self, below: &Group, last: u64)
        ensures { IsReopened last (first_moment below.now) self.old self.new }
    {
        if self.active {
            self.opens = self.opens_over(below, u128::from(last));
        }
    }

    /// The moment from which an active class opens.
    #[inline(always)]
    fn opens_over(&self, below: &Group, last: u128) -> Option<u128>
        requires { self.now.active ≡ true }
        ensures { (o : Option Curve) (os : List Opening) → RunningStands self.now.limit o os
            → result ≡ since last (later_of (limit_opens o os self.now.total) (first_moment below.now)) }
    {
        if self.limit.is_none() && below.is_never_limited() {
            return Some(0);
        }
        since(
            opens_with(&self.limit, self.total, below.first_moment()),
            last,
        )
    }

    /// The parent.
    pub fn parent(&self) -> Option<u32>
        ensures { result ≡ self.now.parent }
    {
        self.parent
    }

    /// A packet waits in the class or below it.
    pub fn is_active(&self) -> bool
        ensures { result ≡ self.now.active }
    {
        self.active
    }

    /// The virtual time.
    pub fn time(&self) -> u128
        ensures is { result ≡ self.now.time }
        ensures most { result ≤ 2 ^ 79 }
    {
        self.time
    }

    /// The moment from which a packet waits on a path that is open up to the class, 0 where it came by the last wake; told while
    /// the class is active.
    pub fn opens(&self) -> Option<u128>
        ensures { result ≡ self.now.opens }
    {
        self.opens
    }

    /// The same where it is kept: where it has come, nothing else is read of it.
    pub fn opening(&self) -> &Option<u128>
        ensures { result.now ≡ self.now.opens }
    {
        &self.opens
    }
}

/// The link-sharing curve; that of the root has no effect.
fn share_of(class: &HfscClass) -> Option<Curve>
    ensures { result ≡ share_of class.now }
{
    match class.parent {
        None => None,
        Some(_) => class.share,
    }
}

/// A curve without an opening.
fn running_of(curve: Option<Curve>) -> Option<Running>
    requires { CanCarry curve }
    ensures stands { RunningStands result curve [] }
    ensures last { last_in result ≡ None }
{
    match curve {
        None => None,
        Some(curve) => Some(Running::new(curve)),
    }
}

/// The virtual time by a link-sharing curve with a greater total, not less than it was. This is the long part of a sending, and so a
/// call of its own.
#[inline(never)]
fn time_by(share: &Running, time: u128, total: u128) -> u128
    requires time { time ≤ 2 ^ 79 }
    requires total { total < 2 ^ 100 }
    requires opened { IsSomeAnd (last_of share.now) (λ last. last.count < total) }
    ensures later { time ≤ result }
    ensures most { result ≤ 2 ^ 79 }
    ensures grown { (s : Curve) (os : List Opening) → Represents share.now s os
        → result ≡ min (max time (or_zero (deadline s os total))) (2 ^ 79) }
{
    let reached = share.deadline(total).unwrap_or(0);
    time.max(reached).min(MOST_TIME)
}

/// Adds an opening, where there is a curve.
#[inline(always)]
fn begin(running: &mut Option<Running>, at: u128, count: u128)
    requires at { at < 2 ^ 80 }
    requires count { count < 2 ^ 100 }
    requires later { ForSome (last_in running.old) (λ last. (last.at ≤ at) × (last.count ≤ count)) }
    ensures stands { (o : Option Curve) (os : List Opening) → RunningStands running.old o os → RunningStands running.new o (opening at count ∷ os) }
    ensures last { last_in running.new ≡ (if is_some running.old then Some (opening at count) else None) }
    ensures curve { is_some running.new ≡ is_some running.old }
{
    if let Some(running) = running {
        running.begin(at, count);
    }
}

/// The moment from which a limit lets a class of this total be served, or that below it where this is later.
fn opens_with(limit: &Option<Running>, total: u128, below: Option<u128>) -> Option<u128>
    requires total { total < 2 ^ 100 }
    requires opened { IsOpen true limit.now }
    ensures { (o : Option Curve) (os : List Opening) → RunningStands limit.now o os → result ≡ later_of (limit_opens o os total) below }
{
    match limit {
        None => below,
        Some(limit) => later_of(limit.soonest(total), below),
    }
}

/// A moment, 0 in place of one that is not after `last`.
fn since(moment: Option<u128>, last: u128) -> Option<u128>
    ensures { result ≡ since last moment }
{
    match moment {
        None => None,
        Some(moment) if moment <= last => Some(0),
        Some(moment) => Some(moment),
    }
}

/// The later of two moments, where `None` means never.
fn later_of(a: Option<u128>, b: Option<u128>) -> Option<u128>
    ensures { result ≡ later_of a b }
{
    match (a, b) {
        (Some(x), Some(y)) => Some(x.max(y)),
        _ => None,
    }
}
