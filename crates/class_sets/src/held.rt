// The classes that are held back.
ghost use Rattle.std.specs.Prelude.{◌≡◌, ◌≢◌, ◌≤◌, ◌<◌, ◌-◌, ◌/◌, ℕ, IfOk, length, get_or, false, true};
ghost use Rattle.class_sets.specs.Marked.{marked};

use crate::set::ClassSet;
use play_base::NoMemory;
use std::alloc::Global;
use std::marker::Model;

/// Classes below 256 that are held back, each till a moment of its own. None of them is earlier than that of its group of 16 classes, and no
/// group's than `until`. Contracts see the set and the moments.
#[derive(Drop)]
pub struct HeldClasses {
    set: ClassSet,
    moments: Vec<u64>,
    groups: Vec<u64>,
    until: u64,
}

impl Model for HeldClasses {
    ghost use Rattle.class_sets.specs.Held.{AreNoSooner, HeldBack};

    ghost Value = { HeldBack };

    ghost view = { λ h. record { set = h.set; moments = h.moments.items } };

    ghost invariant = { λ h. AreNoSooner h.set h.moments.items h.groups.items h.until };
}

// Takes those of a group out of a set whose moment has come. No moment of the others is earlier than the answer.
fn take_due(set: &mut ClassSet, moments: &[u64], group: u32, now: u64) -> u64
    requires each { length moments.now ≡ 256 }
    requires group { group < 16 }
    ensures fewer { (c : ℕ) → marked set.new c ≡ 1 → marked set.old c ≡ 1 }
    ensures late { (c : ℕ) → c / 16 ≡ group → marked set.new c ≡ 1 → now < get_or moments.now c 0 }
    ensures stay { (c : ℕ) → marked set.old c ≡ 1 → now < get_or moments.now c 0 → marked set.new c ≡ 1 }
    ensures no_sooner { (c : ℕ) → c / 16 ≡ group → marked set.new c ≡ 1 → result ≤ get_or moments.now c 0 }
{
    let mut until = u64::MAX;
    let mut from = 16 * group;
    'classes: while let Some(class) = set.first_from(from) {
        if class / 16 > group {
            break;
        }
        from = class + 1;
        let moment = moments[class as usize];
        if moment <= now {
            set.take(class, true);
        } else {
            until = until.min(moment);
        }
    }
    until
}

// Does so for each group whose moment has come. No group's moment is then earlier than the answer.
fn take_all_due(set: &mut ClassSet, moments: &[u64], groups: &mut [u64], now: u64) -> u64
    requires each { length moments.now ≡ 256 }
    requires each_group { length groups.old ≡ 16 }
    requires few { (c : ℕ) → marked set.old c ≡ 1 → c < 256 }
    requires before { (c : ℕ) → marked set.old c ≡ 1 → get_or groups.old (c / 16) 0 ≤ get_or moments.now c 0 }
    ensures fewer { (c : ℕ) → marked set.new c ≡ 1 → marked set.old c ≡ 1 }
    ensures late { (c : ℕ) → marked set.new c ≡ 1 → now < get_or moments.now c 0 }
    ensures stay { (c : ℕ) → marked set.old c ≡ 1 → now < get_or moments.now c 0 → marked set.new c ≡ 1 }
    ensures no_sooner { (c : ℕ) → marked set.new c ≡ 1 → get_or groups.new (c / 16) 0 ≤ get_or moments.now c 0 }
    ensures least { (k : ℕ) → k < 16 → result ≤ get_or groups.new k 0 }
{
    let mut until = u64::MAX;
    for group in 0..16 {
        if groups[group] <= now {
            groups[group] = take_due(set, moments, group as u32, now);
        }
        until = until.min(groups[group]);
    }
    until
}

impl HeldClasses {
    /// No class is held back. Takes all the memory that it will ever take; `NoMemory` comes only when memory runs out.
    pub fn none(alloc: Global) -> Result<HeldClasses, NoMemory>
        ensures { IfOk result (λ h. (c : ℕ) → marked h.set c ≡ 0) }
    {
        let moments = vec![in alloc; 0; 256]?;
        let groups = vec![in alloc; u64::MAX; 16]?;
        Ok(HeldClasses {
            set: ClassSet::none(),
            moments,
            groups,
            until: u64::MAX,
        })
    }

    /// Whether no class is held back.
    pub fn is_empty(&self) -> bool
        ensures none { result ≡ true → (c : ℕ) → marked self.now.set c ≡ 0 }
        ensures some { result ≡ false → (c : ℕ) × (marked self.now.set c ≡ 1) }
    {
        self.set.is_empty()
    }

    /// Those of some classes that are not held back.
    pub fn awake(&self, classes: &ClassSet) -> ClassSet
        ensures { (c : ℕ) → marked result c ≡ marked classes.now c - marked self.now.set c }
    {
        classes.without(&self.set)
    }

    /// Holds a class back till a moment.
    pub fn hold(&mut self, class: u32, moment: u64)
        requires { class < 256 }
        ensures here { marked self.new.set class ≡ 1 }
        ensures others { (c : ℕ) → c ≢ class → marked self.new.set c ≡ marked self.old.set c }
        ensures moment { get_or self.new.moments class 0 ≡ moment }
        ensures moments { (c : ℕ) → c ≢ class → get_or self.new.moments c 0 ≡ get_or self.old.moments c 0 }
    {
        self.set.put(class, true);
        self.moments[class as usize] = moment;
        let group = &mut self.groups[(class / 16) as usize];
        *group = moment.min(*group);
        self.until = self.until.min(moment);
    }

    /// Holds a class back no longer.
    pub fn free(&mut self, class: u32)
        requires { class < 256 }
        ensures here { marked self.new.set class ≡ 0 }
        ensures others { (c : ℕ) → c ≢ class → marked self.new.set c ≡ marked self.old.set c }
        ensures moments { self.new.moments ≡ self.old.moments }
    {
        self.set.take(class, true);
    }

    /// Holds those classes back no longer whose moment has come. It looks at the groups only where the moment of one has come, and at the
    /// classes of these alone.
    pub fn wake(&mut self, now: u64)
        ensures fewer { (c : ℕ) → marked self.new.set c ≡ 1 → marked self.old.set c ≡ 1 }
        ensures late { (c : ℕ) → marked self.new.set c ≡ 1 → now < get_or self.new.moments c 0 }
        ensures stay { (c : ℕ) → marked self.old.set c ≡ 1 → now < get_or self.old.moments c 0 → marked self.new.set c ≡ 1 }
        ensures moments { self.new.moments ≡ self.old.moments }
    {
        if now >= self.until {
            self.until = take_all_due(&mut self.set, &self.moments, &mut self.groups, now);
        }
    }
}
