//! A watch over the siblings of a tree of classes.
ghost use Rattle.std.specs.Prelude.{◌≡◌, ◌≤◌, ◌<◌, ◌↔◌, ◌∷◌, [], ℕ, Bool, IfOk, IsNone, None, is_some, length, map, option_map, replicate, slice_get, ◌&&◌, if◌then◌else◌};
ghost use Rattle.play_base.specs.Units.{units};
ghost use Rattle.hfsc_model.specs.Event.{HfscHistory, Enqueued, Sent};
ghost use Rattle.hfsc_model.specs.Leaf.{leaf};
ghost use Rattle.hfsc_model.specs.Timely.{IsHead};
ghost use Rattle.hfsc_model.specs.Tree.{class_of, IsTree};
ghost use Rattle.hfsc_policy.specs.Classes.{IsClassTree};
ghost use Rattle.hfsc_policy.specs.Heads.{IsSized, kept_in};
ghost use Rattle.share_gaps.specs.Bounds.{bound_of, shares_alone};
ghost use Rattle.share_gaps.specs.Rows.{rows};
ghost use Rattle.share_gaps.specs.Within.{ArePlaces, AreWithin, rate_of};

use crate::gap::{Gap, are_alone, bound_of, gap_of, rate_of};
use crate::lead::{LEVEL, Lead};
use crate::place::{Place, places_of};
use crate::serve::{keep, leave, serve_firsts, serve_seconds};
use crate::siblings::{Siblings, rows_of};
use hfsc_model::HfscClass;
use play_base::{NoMemory, units};
use std::alloc::Global;

/// The siblings of a tree of classes, and how far apart their work was while both were active. Contracts say for which history of
/// packets kept and sent a value stands.
#[derive(Drop)]
pub struct Watch {
    classes: Vec<HfscClass>,
    siblings: Vec<Siblings>,
    places: Vec<Place>,
    rates: Vec<Option<u64>>,
    waiting: Vec<u32>,
    leads: Vec<Lead>,
    longest: u32,
    alone: bool,
    ghost alone_is: { alone ≡ shares_alone classes.items },
    ghost is_tree: { IsTree classes.items },
    ghost pairs_are: { siblings.items ≡ rows classes.items },
    ghost pairs_within: { AreWithin (length classes.items) siblings.items },
    ghost places_are: { ArePlaces classes.items siblings.items places.items },
    ghost rates_are: { rates.items ≡ map rate_of classes.items },
    ghost rate_count: { length rates.items ≡ length classes.items },
    ghost count: { length waiting.items ≡ length classes.items },
    ghost lead_count: { length leads.items ≡ length siblings.items },
}

/// The rates of classes, where their link-sharing curves are lines.
fn rates_of(alloc: Global, classes: &[HfscClass]) -> Result<Vec<Option<u64>>, NoMemory>
    ensures { IfOk result (λ rates. rates.items ≡ map rate_of classes.now) }
{
    let mut rates = Vec::with_capacity(alloc, classes.len())?;
    for class in classes {
        rates.push(rate_of(class))?;
    }
    Ok(rates)
}

/// The classes in a list of their own.
fn copied(alloc: Global, classes: &[HfscClass]) -> Result<Vec<HfscClass>, NoMemory>
    ensures { IfOk result (λ all. all.items ≡ classes.now) }
{
    let all = classes.to_vec(alloc)?;
    Ok(all)
}

/// No packet waits in any of `count` classes.
fn none_waiting(alloc: Global, count: usize) -> Result<Vec<u32>, NoMemory>
    ensures { IfOk result (λ waiting. waiting.items ≡ replicate count 0) }
{
    let waiting = vec![in alloc; 0; count]?;
    Ok(waiting)
}

/// None of `count` pairs is ahead.
fn level_leads(alloc: Global, count: usize) -> Result<Vec<Lead>, NoMemory>
    ensures { IfOk result (λ leads. leads.items ≡ replicate count (record { first = 0; second = 0; most = 0 })) }
{
    let leads = vec![in alloc; LEVEL; count]?;
    Ok(leads)
}

impl Watch {
    ghost use Rattle.share_gaps.specs.Watching.{Represents, classes_of, gap_after};

    /// A tree of at most 256 classes, of which nothing was kept or sent. Takes all the memory that it will ever take; `NoMemory` comes
    /// only when memory runs out.
    pub fn build(alloc: Global, classes: &[HfscClass]) -> Result<Watch, NoMemory>
        requires count { length classes.now ≤ 256 }
        requires tree { IsClassTree classes.now }
        ensures stands { IfOk result (λ w. Represents w []) }
        ensures classes { IfOk result (λ w. classes_of w ≡ classes.now) }
    {
        let siblings = rows_of(alloc, classes)?;
        let places = places_of(alloc, classes, &siblings)?;
        let rates = rates_of(alloc, classes)?;
        let waiting = none_waiting(alloc, classes.len())?;
        let leads = level_leads(alloc, siblings.len())?;
        let alone = are_alone(classes);
        let classes = copied(alloc, classes)?;
        Ok(Watch {
            classes,
            siblings,
            places,
            rates,
            waiting,
            leads,
            longest: 0,
            alone,
        })
    }

    /// The classes that it watches. Does not allocate.
    pub fn classes(&self) -> &[HfscClass]
        ensures { result.now ≡ classes_of self.now }
    {
        self.classes.as_slice()
    }

    /// The gap of a pair of siblings, by its row: the pairs stand in the order of the file of the first, then of the second. `None` comes
    /// exactly past the last. Does not allocate.
    pub fn gap(&self, row: u32) -> Option<Gap>
        ensures none { IsNone result ↔ (length (rows (classes_of self.now)) ≤ row) }
        ensures gap { (h : HfscHistory) → Represents self.now h
            → result ≡ option_map (gap_after (classes_of self.now) h) (slice_get (rows (classes_of self.now)) row) }
    {
        if row as usize >= self.siblings.len() {
            return None;
        }
        let pair = &self.siblings[row as usize];
        let most = self.leads[row as usize].most;
        let gap = gap_of(
            most,
            self.rates[pair.first as usize],
            self.rates[pair.second as usize],
        );
        let bound = self.bound(pair.first, gap);
        Some(Gap {
            first: pair.first,
            second: pair.second,
            gap,
            bound,
        })
    }

    /// The bound of the gap of a class and a sibling, where there is a gap and link sharing alone decides.
    fn bound(&self, class: u32, gap: Option<u128>) -> Option<u128>
        requires { class < length (classes_of self.now) }
        ensures { result ≡ (if shares_alone (classes_of self.now) && is_some gap
            then bound_of (classes_of self.now) (class_of (classes_of self.now) class).parent (units self.now.longest) else None) }
    {
        if !self.alone || gap.is_none() {
            return None;
        }
        let amount = units(u64::from(self.longest));
        bound_of(&self.classes, self.classes[class as usize].parent, amount)
    }

    /// A packet was kept in a class.
    pub fn kept(&mut self, class: u32)
        ensures stands { (h : HfscHistory) (at len : ℕ) → Represents self.old h → kept_in h < 4000000 → IsSized len
            → Represents self.new (Enqueued class at len ∷ h) }
        ensures classes { classes_of self.new ≡ classes_of self.old }
    {
        if class as usize >= self.places.len() {
            return;
        }
        keep(&mut self.waiting, &self.places[class as usize]);
    }

    /// The head of a class, of `len` bytes, was sent. It takes a time that grows with the siblings of the class and of those above it.
    pub fn sent(&mut self, class: u32, len: u32)
        ensures stands { (h : HfscHistory) (real : Bool) (start : ℕ) → Represents self.old h → IsHead (leaf h class).waiting len
            → Represents self.new (Sent class len real start ∷ h) }
        ensures classes { classes_of self.new ≡ classes_of self.old }
    {
        self.longest = self.longest.max(len);
        if class as usize >= self.places.len() {
            return;
        }
        let amount = units(u64::from(len));
        let place = &self.places[class as usize];
        leave(&mut self.waiting, place);
        serve_firsts(
            &mut self.leads,
            &place.firsts,
            &self.siblings,
            &self.waiting,
            &self.rates,
            amount,
        );
        serve_seconds(
            &mut self.leads,
            &place.seconds,
            &self.siblings,
            &self.waiting,
            &self.rates,
            amount,
        );
    }
}
