//! Classes in the order of their keys.
//!
//! A key is a moment or a virtual time. One of `None` comes after all others, and of equal keys the class that stands
//! earlier in the file goes first. Places are found by binary search, and `reserve` takes all memory.
#![tactic(auto)]

ghost use Rattle.std.specs.Prelude.{◌≡◌, ◌==◌, ◌≤◌, ◌<◌, ◌+◌, ℕ, [], length, true, false, slice_set, IfOk, if◌then◌else◌};
ghost use Rattle.std.specs.Vec.{vec_capacity};
ghost use Rattle.ranking.specs.Search.{IsFound};
ghost use Rattle.ranking.specs.Keys.{all_keys};
ghost use Rattle.ranking.specs.Order.{is_before, is_ranked, are_below, is_in, key_of, with_class, without};

use play_base::NoMemory;
use std::alloc::Global;

mod keys;
mod moves;
mod search;

use keys::Keys;
use moves::{move_to, put_at, put_last, take_at};
use search::{goes_before, place_beside, place_in, place_of};

/// Some of the classes from a first one on, in the order of their keys. No key is kept for those before it.
///
/// Contracts see the classes that are there, in their order, and the keys of all, also of those that are not there.
#[derive(Debug, Drop)]
pub struct Ranking {
    keys: Keys,
    order: Vec<u32>,
    ghost ranked: { is_ranked (all_keys keys) order.items ≡ true },
    ghost below: { are_below (length (all_keys keys)) order.items ≡ true },
    ghost room: { length (all_keys keys) ≤ vec_capacity order },
}

impl Ranking {
    ghost use Rattle.ranking.specs.Ranking.{HasPlace, IsReplaced, first_of, keys_of, order_of};

    /// An empty ranking of `classes` classes from `first` on, with room for all of them. Each has the key until it is given
    /// another.
    pub fn reserve(
        alloc: Global,
        first: u32,
        classes: u32,
        key: Option<u128>,
    ) -> Result<Ranking, NoMemory>
        ensures empty { IfOk result (λ r. order_of r ≡ []) }
        ensures first { IfOk result (λ r. first_of r ≡ first) }
        ensures classes { IfOk result (λ r. length (keys_of r) ≡ first + classes) }
        ensures keys { IfOk result (λ r. (c : ℕ) → HasPlace r c → key_of (keys_of r) c ≡ key) }
    {
        let order = Vec::with_capacity(alloc, first as usize + classes as usize)?;
        let keys = Keys::reserve(alloc, first, classes, key)?;
        Ok(Ranking { keys, order })
    }

    /// The classes that are there, in the order of their keys. Constant time.
    pub fn as_slice(&self) -> &[u32]
        ensures { result.now ≡ order_of self.now }
    {
        &self.order
    }

    /// The key that a class was put in with last, `None` where it has no place. Constant time.
    pub fn key(&self, class: u32) -> Option<u128>
        ensures { result ≡ key_of (keys_of self.now) class }
    {
        self.keys.get(class)
    }

    /// Whether a class goes before another by the keys that they were put in with last, whether they are there or not. Constant time.
    pub fn leads(&self, class: u32, other: u32) -> bool
        ensures { result ≡ is_before (keys_of self.now) class other }
    {
        goes_before(&self.keys, class, other)
    }

    /// Puts in a class that is not there, with its key. It takes the logarithm of the classes to find the place, and moves
    /// those that stand behind it. Where none is there it takes constant time.
    #[inline(always)]
    pub fn put(&mut self, class: u32, key: Option<u128>)
        requires class { HasPlace self.old class }
        requires absent { is_in class (order_of self.old) ≡ false }
        ensures first { first_of self.new ≡ first_of self.old }
        ensures keys { keys_of self.new ≡ slice_set (keys_of self.old) class key }
        ensures order { order_of self.new ≡ with_class (keys_of self.new) (order_of self.old) class }
    {
        if self.order.is_empty() {
            self.put_alone(class, key);
        } else {
            self.put_among(class, key);
        }
    }

    /// The same where no class is there.
    #[inline(always)]
    fn put_alone(&mut self, class: u32, key: Option<u128>)
        requires class { HasPlace self.old class }
        requires absent { is_in class (order_of self.old) ≡ false }
        requires empty { length (order_of self.old) ≡ 0 }
        ensures first { first_of self.new ≡ first_of self.old }
        ensures keys { keys_of self.new ≡ slice_set (keys_of self.old) class key }
        ensures order { order_of self.new ≡ with_class (keys_of self.new) (order_of self.old) class }
    {
        self.keys.set(class, key);
        put_last(&mut self.order, class);
    }

    /// The same where any may be there.
    #[inline(never)]
    fn put_among(&mut self, class: u32, key: Option<u128>)
        requires class { HasPlace self.old class }
        requires absent { is_in class (order_of self.old) ≡ false }
        ensures first { first_of self.new ≡ first_of self.old }
        ensures keys { keys_of self.new ≡ slice_set (keys_of self.old) class key }
        ensures order { order_of self.new ≡ with_class (keys_of self.new) (order_of self.old) class }
    {
        self.keys.set(class, key);
        let place = place_of(&self.order, &self.keys, class, key);
        put_at(&mut self.order, place, class);
    }

    /// Takes out a class that is there. It takes the logarithm of the classes to find it, and moves those that stand
    /// behind it.
    pub fn take(&mut self, class: u32)
        requires { is_in class (order_of self.old) ≡ true }
        ensures first { first_of self.new ≡ first_of self.old }
        ensures keys { keys_of self.new ≡ keys_of self.old }
        ensures order { order_of self.new ≡ without (order_of self.old) class }
    {
        self.take_out(class);
    }

    /// Takes a class out where it `was` there, and puts it in with a key where it `is` to be there. It takes the time of
    /// `take` and `put`; a class that stays there moves only those between its places.
    #[inline(always)]
    pub fn replace(&mut self, class: u32, was: bool, is: bool, key: Option<u128>)
        requires class { HasPlace self.old class }
        requires was { is_in class (order_of self.old) ≡ was }
        ensures { IsReplaced class is key self.old self.new }
    {
        if !was {
            self.put_if(class, is, key);
        } else if is {
            self.rekey(class, key);
        } else {
            self.take_out(class);
        }
    }

    /// Gives a class that is not there a key. Constant time.
    pub fn note(&mut self, class: u32, key: Option<u128>)
        requires class { HasPlace self.old class }
        requires absent { is_in class (order_of self.old) ≡ false }
        ensures first { first_of self.new ≡ first_of self.old }
        ensures keys { keys_of self.new ≡ slice_set (keys_of self.old) class key }
        ensures order { order_of self.new ≡ order_of self.old }
    {
        self.keys.set(class, key);
    }

    /// Takes out a class that is there. The only one need not be found.
    #[inline(always)]
    fn take_out(&mut self, class: u32)
        requires there { is_in class (order_of self.old) ≡ true }
        ensures first { first_of self.new ≡ first_of self.old }
        ensures keys { keys_of self.new ≡ keys_of self.old }
        ensures order { order_of self.new ≡ without (order_of self.old) class }
        ensures classes { (c : ℕ) → is_in c (order_of self.new) ≡ (if class == c then false else is_in c (order_of self.old)) }
    {
        if self.order.len() == 1 {
            self.take_last(class);
        } else {
            self.take_among(class);
        }
    }

    /// Takes out the only class that is there.
    #[inline(always)]
    fn take_last(&mut self, class: u32)
        requires there { is_in class (order_of self.old) ≡ true }
        requires alone { length (order_of self.old) ≡ 1 }
        ensures first { first_of self.new ≡ first_of self.old }
        ensures keys { keys_of self.new ≡ keys_of self.old }
        ensures order { order_of self.new ≡ without (order_of self.old) class }
        ensures classes { (c : ℕ) → is_in c (order_of self.new) ≡ (if class == c then false else is_in c (order_of self.old)) }
    {
        let _ = self.order.pop();
    }

    /// Finds a class that is there, and takes it out.
    #[inline(never)]
    fn take_among(&mut self, class: u32)
        requires there { is_in class (order_of self.old) ≡ true }
        ensures first { first_of self.new ≡ first_of self.old }
        ensures keys { keys_of self.new ≡ keys_of self.old }
        ensures order { order_of self.new ≡ without (order_of self.old) class }
        ensures classes { (c : ℕ) → is_in c (order_of self.new) ≡ (if class == c then false else is_in c (order_of self.old)) }
    {
        let place = place_in(&self.order, &self.keys, class);
        self.take_found(class, place);
    }

    /// Finds a class that is there, and gives it another key.
    #[inline(never)]
    fn rekey(&mut self, class: u32, key: Option<u128>)
        requires class { HasPlace self.old class }
        requires there { is_in class (order_of self.old) ≡ true }
        ensures { IsReplaced class true key self.old self.new }
    {
        let from = place_in(&self.order, &self.keys, class);
        self.shift(class, from, key);
    }

    /// Takes out a class that is there, at the place where it was found.
    #[inline(always)]
    fn take_found(&mut self, class: u32, place: usize)
        requires there { is_in class (order_of self.old) ≡ true }
        requires found { IsFound (keys_of self.old) (order_of self.old) class place place }
        ensures first { first_of self.new ≡ first_of self.old }
        ensures keys { keys_of self.new ≡ keys_of self.old }
        ensures order { order_of self.new ≡ without (order_of self.old) class }
        ensures classes { (c : ℕ) → is_in c (order_of self.new) ≡ (if class == c then false else is_in c (order_of self.old)) }
    {
        take_at(&mut self.order, place);
    }

    /// Gives a class that is there another key, and moves it past those that stand between its places.
    #[inline(always)]
    fn shift(&mut self, class: u32, from: usize, key: Option<u128>)
        requires class { HasPlace self.old class }
        requires there { is_in class (order_of self.old) ≡ true }
        requires found { IsFound (keys_of self.old) (order_of self.old) class from from }
        ensures { IsReplaced class true key self.old self.new }
    {
        self.keys.set(class, key);
        let to = place_beside(&self.order, &self.keys, from, class, key);
        move_to(&mut self.order, from, to, class);
    }

    /// Puts a class in with a key, where it is to be there.
    #[inline(always)]
    fn put_if(&mut self, class: u32, is: bool, key: Option<u128>)
        requires class { HasPlace self.old class }
        requires absent { is_in class (order_of self.old) ≡ false }
        ensures first { first_of self.new ≡ first_of self.old }
        ensures count { length (keys_of self.new) ≡ length (keys_of self.old) }
        ensures classes { (c : ℕ) → is_in c (order_of self.new) ≡ (if class == c then is else is_in c (order_of self.old)) }
        ensures key { key_of (keys_of self.new) class ≡ (if is then key else key_of (keys_of self.old) class) }
        ensures others { (c : ℕ) → (c ≡ class → ⊥) → key_of (keys_of self.new) c ≡ key_of (keys_of self.old) c }
    {
        if is {
            self.put(class, key);
        }
    }
}
