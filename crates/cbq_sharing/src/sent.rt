// What a sending changes of the classes.
ghost use Rattle.std.specs.Prelude.{◌≡◌, ◌≢◌, ◌≤◌, ◌<◌, ◌+◌, ◌-◌, ◌*◌, ◌^◌, ℕ, List, length, get_or, Some, if◌then◌else◌};
ghost use Rattle.cbq_estimator.specs.Average.{Ended};
ghost use Rattle.cbq_estimator.specs.Estimate.{Estimate};
ghost use Rattle.cbq_model.specs.Choice.{rounds_for};
ghost use Rattle.cbq_model.specs.Tree.{class_of, quantum_of};
ghost use Rattle.class_sets.specs.Marked.{marked};
ghost use Rattle.cbq_sharing.specs.Held.{IsUntold};
ghost use Rattle.cbq_sharing.specs.Sent.{told_up, with_credit, with_estimates, with_last};

use crate::sharing::{LEVELS, Shares};
use class_sets::HeldClasses;

impl Shares {
    /// A class gains its quantum in each of `rounds` rounds, which are no more than it needs for a packet of 262,144 bytes.
    pub fn gain(&mut self, class: u32, rounds: u64)
        requires class { class < length self.old.tree }
        requires few { rounds ≤ rounds_for (get_or self.old.credits class 0) (quantum_of self.old.rate (class_of self.old.tree class)) 262144 }
        ensures { self.new ≡ with_credit self.old class (get_or self.old.credits class 0 + rounds * quantum_of self.old.rate (class_of self.old.tree class)) }
    {
        let quantum = self.quantum(class);
        let credit = self.credits[class as usize];
        self.credits[class as usize] = credit + rounds * quantum;
    }

    /// A class pays for a packet of `len` bytes, and keeps no credit where it is then empty.
    pub fn pay(&mut self, class: u32, len: u32, emptied: bool)
        requires class { class < length self.old.tree }
        ensures { self.new ≡ with_credit self.old class (if emptied then 0 else get_or self.old.credits class 0 - len) }
    {
        let credit = self.credits[class as usize];
        self.credits[class as usize] = if emptied {
            0
        } else {
            credit.saturating_sub(u64::from(len))
        };
    }

    /// The ring of a class's priority begins at it from now on, and the latest sending ended at `end`, no earlier than the one before.
    pub fn set_last(&mut self, class: u32, end: u64)
        requires class { class < length self.old.tree }
        requires order { self.old.ended ≤ end }
        ensures { self.new ≡ with_last self.old class end }
    {
        let priority = self.classes[class as usize].priority;
        self.cursors[priority as usize] = class;
        self.ended = end;
    }

    // Tells a class and those above it, over at most `levels` levels, of a packet of `len` bytes that ended at the last end.
    fn tell_up(&mut self, levels: u32, at: Option<u32>, len: u32)
        requires class { (p : ℕ) → at ≡ Some p → p < length self.old.tree }
        requires early { self.old.ended < 2 ^ 63 + 2 ^ 62 }
        requires some_bytes { 1 ≤ len }
        requires few_bytes { len ≤ 262144 }
        ensures { self.new ≡ with_estimates self.old (told_up levels self.old.tree at (record { end = self.old.ended; len = len }) self.old.estimates) }
    {
        let Some(class) = at else {
            return;
        };
        if levels == 0 {
            return;
        }
        self.estimators[class as usize].ended(self.ended, len);
        let parent = self.classes[class as usize].parent;
        self.tell_up(levels - 1, parent, len);
    }

    // Holds a class and those above it, over at most `levels` levels, back no longer: when they are told of a packet, their averages change.
    fn free_up(&self, levels: u32, at: Option<u32>, held: &mut HeldClasses)
        requires class { (p : ℕ) → at ≡ Some p → p < length self.now.tree }
        ensures here { (p : ℕ) → at ≡ Some p → 0 < levels → marked held.new.set p ≢ 1 }
        ensures others { (c : ℕ) → marked held.new.set c ≡ 1 → (x : Ended) (es : List Estimate)
            → IsUntold held.old.set es (told_up levels self.now.tree at x es) c }
        ensures moments { held.new.moments ≡ held.old.moments }
    {
        let Some(class) = at else {
            return;
        };
        if levels == 0 {
            return;
        }
        let parent = self.classes[class as usize].parent;
        held.free(class);
        self.free_up(levels - 1, parent, held);
    }

    /// Tells a class and those above it of a packet of `len` bytes that ended at the last end, and holds none of them back.
    pub fn tell(&mut self, class: u32, len: u32, held: &mut HeldClasses)
        requires class { class < length self.old.tree }
        requires early { self.old.ended < 2 ^ 63 + 2 ^ 62 }
        requires some_bytes { 1 ≤ len }
        requires few_bytes { len ≤ 262144 }
        ensures told { self.new ≡ with_estimates self.old (told_up 8 self.old.tree (Some class) (record {
          end = self.old.ended;
          len = len;
        }) self.old.estimates) }
        ensures here { marked held.new.set class ≢ 1 }
        ensures others { (c : ℕ) → marked held.new.set c ≡ 1 → IsUntold held.old.set self.old.estimates self.new.estimates c }
        ensures moments { held.new.moments ≡ held.old.moments }
    {
        self.tell_up(LEVELS, Some(class), len);
        if !held.is_empty() {
            self.free_up(LEVELS, Some(class), held);
        }
    }
}
