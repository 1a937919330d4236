// Who is told what a play decides.
ghost use Rattle.std.specs.Prelude.{◌≡◌, ◌++◌, ◌∷◌, [], ℕ, List, OnOk};

use crate::kept::KeptFate;
use play_base::NoMemory;

/// Is told of each decision of a play, in the order of the journal.
pub trait Keeper {
    ghost use Rattle.play_loop.specs.declared.kept.KeptFate.{KeptFate};

    /// These it was told since the play began.
    ghost told: { Self → List KeptFate → Type 0 };

    /// What no call changes of it, as a number.
    ghost fixed: { Self → ℕ };

    /// One more fate is decided. The only error is lack of memory.
    fn keep(&mut self, fate: KeptFate) -> Result<(), NoMemory>
        ensures told { OnOk result ((ks : List KeptFate) → told self.old ks → told self.new (ks ++ fate ∷ [])) }
        ensures fixed { fixed self.new ≡ fixed self.old };
}

/// Keeps nothing, at no cost.
#[derive(Drop)]
pub struct KeepsNothing;

impl Keeper for KeepsNothing {
    ghost told = { λ s ks. Unit {0} };

    ghost fixed = { λ s. 0 };

    #[inline]
    fn keep(&mut self, _fate: KeptFate) -> Result<(), NoMemory> {
        Ok(())
    }
}
