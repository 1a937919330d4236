// The classes of each priority.
ghost use Rattle.std.specs.Prelude.{◌≡◌, ◌≤◌, ◌<◌, ◌==◌, ◌+◌, ℕ, List, All, IfOk, length, get_or, min, [], if◌then◌else◌};
ghost use Rattle.cbq_model.specs.Tree.{class_of};
ghost use Rattle.cbq_sharing.specs.Fresh.{IsClass};
ghost use Rattle.cbq_sharing.specs.Rings.{AreRings, IsRing, IsTop};
ghost use Rattle.class_sets.specs.Marked.{marked};

use cbq_model::CbqClass;
use class_sets::ClassSet;
use play_base::NoMemory;
use std::alloc::Global;

/// For each priority the set of its classes; and for each of 0 to 8 the least priority from which on no class stands below it.
#[derive(Drop)]
pub struct Rings {
    pub sets: Vec<ClassSet>,
    pub tops: Vec<u8>,
}

// The classes of a priority.
fn ring_of(classes: &[CbqClass], priority: u8) -> ClassSet
    requires few { length classes.now ≤ 256 }
    ensures { IsRing classes.now priority result }
{
    let mut ring = ClassSet::none();
    for place in 0..classes.len() {
        ring.put(place as u32, classes[place].priority == priority);
    }
    ring
}

// The top above a priority, by the one at it and by its ring.
fn top_with(ring: &ClassSet, priority: u8, top: u8) -> u8
    requires priority { priority < 8 }
    ensures { (cs : List CbqClass) → IsRing cs priority ring.now → IsTop cs priority top → IsTop cs (priority + 1) result }
{
    if ring.first_from(0).is_some() {
        priority + 1
    } else {
        top
    }
}

impl Rings {
    /// The rings of at most 256 classes, whose numbers are in their ranges. `NoMemory` comes only when memory runs out.
    pub fn build(alloc: Global, classes: &[CbqClass]) -> Result<Rings, NoMemory>
        requires few { length classes.now ≤ 256 }
        requires classes { All IsClass classes.now }
        ensures { IfOk result (λ r. AreRings classes.now r.sets.items r.tops.items) }
    {
        let mut sets = Vec::new(alloc);
        let mut tops = Vec::new(alloc);
        let mut top = 0;
        tops.push(top)?;
        for priority in 0..8 {
            let ring = ring_of(classes, priority);
            top = top_with(&ring, priority, top);
            sets.push(ring)?;
            tops.push(top)?;
        }
        Ok(Rings { sets, tops })
    }

    /// Those of a priority among the classes that wait.
    pub fn among(&self, waiting: &ClassSet, priority: u8) -> ClassSet
        requires { priority < length self.now.sets.items }
        ensures { (c : ℕ) → marked result c ≡ min (marked waiting.now c) (marked (get_or self.now.sets.items priority []) c) }
    {
        waiting.within(&self.sets[priority as usize])
    }
}
