// What is kept of a play.
ghost use Rattle.std.specs.Prelude.{◌≡◌, [], List};
ghost use Rattle.play_chain.specs.Keeping.{Holds, first_kind, kind_of, second_kind};
ghost use Rattle.play_chain.specs.Tables.{HoldsFirsts, HoldsSeconds};

use crate::firsts::Firsts;
use crate::seconds::Seconds;
use play_base::NoMemory;
use play_loop::{Keeper, KeptFate};
use std::alloc::Global;

/// What a play keeps of the fates that it is told: nothing, or a table of them by their numbers, as those of a first play or of a
/// second. One type, so that one loop serves all plays.
#[derive(Drop)]
pub enum Tables {
    /// None is kept.
    Nothing,
    /// Those of a first play.
    Firsts(Firsts),
    /// Those of a second.
    Seconds(Seconds),
}

impl Tables {
    ghost use Rattle.play_loop.specs.declared.kept.KeptFate.{KeptFate};

    /// The table of a first play, if it is one, else an empty one. Does not allocate.
    pub fn into_firsts(self, alloc: Global) -> Firsts
        ensures { kind_of self ≡ first_kind → (ks : List KeptFate) → Holds self ks → HoldsFirsts result ks }
    {
        match self {
            Tables::Firsts(table) => table,
            _ => Firsts::new(alloc),
        }
    }

    /// The table of a second play, if it is one, else an empty one. Does not allocate.
    pub fn into_seconds(self, alloc: Global) -> Seconds
        ensures { kind_of self ≡ second_kind → (ks : List KeptFate) → Holds self ks → HoldsSeconds result ks }
    {
        match self {
            Tables::Seconds(table) => table,
            _ => Seconds::new(alloc),
        }
    }
}

impl Keeper for Tables {
    ghost use Rattle.play_chain.specs.Keeping.{Holds, kind_of};

    ghost told = { λ s ks. Holds s ks };

    ghost fixed = { λ s. kind_of s };

    fn keep(&mut self, fate: KeptFate) -> Result<(), NoMemory> {
        match self {
            Tables::Nothing => Ok(()),
            Tables::Firsts(table) => table.add(fate.number, fate.arrival, &fate.fate),
            Tables::Seconds(table) => table.add(fate.number, &fate.fate),
        }
    }
}
