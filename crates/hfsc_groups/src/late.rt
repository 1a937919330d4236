//! The children that open late, in the order of the moments from which they open.
ghost use Rattle.std.specs.Prelude.{◌≡◌, Option, length, true, IfOk};
ghost use Rattle.ranking.specs.Order.{key_of};
ghost use Rattle.hfsc_groups.specs.NeverLimited.{IsNeverLimited};

use crate::delays::{delay_in, first_key_in, is_late};
use play_base::NoMemory;
use ranking::Ranking;
use std::alloc::Global;

/// The children of a class that open late. While none ever did it is `never_limited`: the list is empty, and all keys are 0.
#[derive(Drop)]
pub struct LimitedChildren {
    never_limited: bool,
    ranking: Ranking,
    ghost never_limited_is: { never_limited ≡ true → IsNeverLimited ranking },
}

impl LimitedChildren {
    ghost use Rattle.hfsc_groups.specs.Late.{IsDelayed, IsNewLate, MayDelay, StaysNeverLimited, first_key, late_keys, late_order};

    /// No child, with room for `classes` classes from `first` on.
    pub fn reserve(alloc: Global, first: u32, classes: u32) -> Result<LimitedChildren, NoMemory>
        ensures { IfOk result (IsNewLate first classes) }
    {
        let ranking = Ranking::reserve(alloc, first, classes, Some(0))?;
        Ok(LimitedChildren {
            never_limited: true,
            ranking,
        })
    }

    /// Whether no child ever opened late.
    #[inline(always)]
    pub fn is_never_limited(&self) -> bool
        ensures { result ≡ true → IsNeverLimited self.now.ranking }
    {
        self.never_limited
    }

    /// Whether no child ever opened late, nor does one that opens from this moment.
    #[inline(always)]
    fn stays_never_limited(&self, opens: &Option<u128>) -> bool
        ensures { result ≡ true → StaysNeverLimited opens.now self.now.ranking }
    {
        if !self.never_limited {
            return false;
        }
        !is_late(*opens)
    }

    /// How many children open late.
    pub fn len(&self) -> usize
        ensures { result ≡ length (late_order self.now) }
    {
        self.ranking.as_slice().len()
    }

    /// The moment of the first of them, 0 where there is none.
    pub fn first_key(&self) -> Option<u128>
        ensures { result ≡ first_key (late_keys self.now) (late_order self.now) }
    {
        first_key_in(&self.ranking)
    }

    /// The moment from which a child opens, as it was put in with last, whether it opens late or not.
    pub fn key(&self, class: u32) -> Option<u128>
        ensures { result ≡ key_of (late_keys self.now) class }
    {
        self.ranking.key(class)
    }

    /// Puts a child anew into the list, where those that open at once do not stand; `was` and `is` say whether it was active, and
    /// is now.
    #[inline(always)]
    pub fn delay(&mut self, class: u32, was: bool, is: bool, opens: &Option<u128>)
        requires { MayDelay class was self.old }
        ensures { IsDelayed class is opens.now self.old self.new }
    {
        if self.stays_never_limited(opens) {
            return;
        }
        self.never_limited = false;
        delay_in(&mut self.ranking, class, was, is, *opens);
    }
}
