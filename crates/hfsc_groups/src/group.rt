//! The children of a class: those that are active in the order of their virtual times, those of them that open late in that
//! of the moments from which they open, and the high mark of all.
ghost use Rattle.std.specs.Prelude.{◌≡◌, ℕ, Option, Some, [], max, slice_get, true, IfOk};
ghost use Rattle.hfsc_model.specs.RealTime.{has_come};
ghost use Rattle.hfsc_groups.specs.Lists.{HasKeys};

use crate::late::LimitedChildren;
use play_base::NoMemory;
use ranking::Ranking;
use std::alloc::Global;

/// The active children of a class by virtual time, those of them that open after moment 0 by moment, and the greatest virtual
/// time of all its children. Where no limit holds a child back the second list is empty.
#[derive(Drop)]
pub struct Group {
    times: Ranking,
    moments: LimitedChildren,
    high: u128,
}

impl Group {
    ghost use Rattle.hfsc_groups.specs.Group.{IsNewGroup, MayChange, IsChanged, first_moment, first_open, ranked_in};

    /// No active child, with room for children among the classes from `first` to `classes`.
    pub fn reserve(alloc: Global, first: u32, classes: u32) -> Result<Group, NoMemory>
        ensures { IfOk result (IsNewGroup first classes) }
    {
        let places = classes.saturating_sub(first);
        let times = Ranking::reserve(alloc, first, places, None)?;
        let moments = LimitedChildren::reserve(alloc, first, places)?;
        Ok(Group {
            times,
            moments,
            high: 0,
        })
    }

    /// The active children in the order of their virtual times. Constant time.
    pub fn ranked(&self) -> &[u32]
        ensures { result.now ≡ ranked_in self.now }
    {
        self.times.as_slice()
    }

    /// The greatest virtual time of all children. Constant time.
    pub fn high(&self) -> u128
        ensures { result ≡ self.now.high }
    {
        self.high
    }

    /// Whether no child ever opened later than at once: then the first moment is 0. Constant time.
    #[inline(always)]
    pub fn is_never_limited(&self) -> bool
        ensures { result ≡ true → first_moment self.now ≡ Some 0 }
    {
        self.moments.is_never_limited()
    }

    /// The first moment from which a child opens, 0 where no child is active. One that opens at once stands in the first list
    /// alone, so the second is shorter then. Constant time.
    pub fn first_moment(&self) -> Option<u128>
        ensures { result ≡ first_moment self.now }
    {
        if self.moments.len() == self.times.as_slice().len() {
            self.moments.first_key()
        } else {
            Some(0)
        }
    }

    /// The first child in the order of virtual times that is open at a moment. It looks at the children up to that one.
    pub fn first_open(&self, now: u128) -> Option<u32>
        requires { HasKeys self.now.times self.now.moments }
        ensures { result ≡ first_open now self.now }
    {
        if self.moments.is_never_limited() {
            return front(self.times.as_slice());
        }
        for class in self.times.as_slice() {
            if has_come(self.moments.key(*class), now) {
                return Some(*class);
            }
        }
        None
    }

    /// Puts a child anew into its lists, with its virtual time, not less than before, and the moment from which it opens.
    /// `was` and `is` say whether it was active, and is now. It takes the logarithm of the active children, which it moves.
    #[inline(always)]
    pub fn replace(&mut self, class: u32, was: bool, is: bool, time: u128, opens: &Option<u128>)
        requires { MayChange class was self.old }
        ensures { IsChanged class is time opens.now self.old self.new }
    {
        self.moments.delay(class, was, is, opens);
        self.times.replace(class, was, is, Some(time));
        self.high = self.high.max(time);
    }
}

/// The first class of a list.
#[inline(always)]
fn front(order: &[u32]) -> Option<u32>
    ensures { result ≡ slice_get order.now 0 }
{
    match order.first() {
        None => None,
        Some(class) => Some(*class),
    }
}

/// A moment is there and not later than `now`: it has come.
pub fn has_come(moment: Option<u128>, now: u128) -> bool
    ensures { result ≡ has_come moment now }
{
    match moment {
        None => false,
        Some(moment) => moment <= now,
    }
}
