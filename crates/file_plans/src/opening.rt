// Opening and creating the files of a plan.
ghost use Rattle.std.specs.Prelude.{◌≡◌, ◌<◌, [], ◌∷◌, Some, IfOk, IfErr, OnOk, OnErr, IsErrOf, IsTrue, length, slice_get};
ghost use Rattle.play_base.specs.View.{SameCounts, Unchanged};
ghost use Rattle.play_base.specs.declared.trouble.Trouble.TheVariants as trouble;
ghost use Rattle.file_plans.specs.Came.{AreEmpty, Came, CameAlong, IsReady, IsRefused};
ghost use Rattle.file_plans.specs.Plan.{Place, place_of, places_of};

use crate::plan::{Entry, Way};
use play_base::{Files, Trouble};

/// Opens or creates the entry's file. `Failed` comes only where the count of faults of its part rose, or where the name to be opened is told
/// not to be there; after an error nothing has changed but counts.
#[tactic(auto, using(crate::proofs::CameLaws::came_opened, crate::proofs::CameLaws::came_created))]
pub fn open_next<F: Files>(files: &mut F, entry: &Entry<'_>) -> Result<u32, Trouble>
    ensures came { IfOk result (λ file. Came (place_of entry.now ∷ []) (file ∷ []) (F.view files.old) (F.view files.new)) }
    ensures ready { IfOk result (λ file. IsReady (F.view files.old) (F.view files.new) (place_of entry.now) file) }
    ensures empty { OnOk result (IsTrue (F.view files.old).tells → AreEmpty (F.view files.new) (place_of entry.now ∷ [])) }
    ensures said { OnOk result ((F.view files.new).said ≡ (F.view files.old).said) }
    ensures counts { OnOk result (SameCounts (F.view files.old) (F.view files.new)) }
    ensures refused { OnErr result (Unchanged (F.view files.old) (F.view files.new)) }
    ensures failed { IsErrOf result Trouble.Failed → IsRefused (F.view files.old) (F.view files.new) (place_of entry.now) }
{
    match entry.way {
        Way::Read => files.open(entry.part.number(), entry.name),
        Way::Written => files.create(entry.part.number(), entry.name),
    }
}

/// The first entry of a plan whose file did not come to be, by its place from 0, and why.
#[derive(Clone, Copy, Debug, PartialEq, Eq)]
pub struct Stopped {
    pub at: usize,
    pub trouble: Trouble,
}

/// Opens and creates the files of the plan, in its order, until one does not come to be: their numbers, in the same order. Takes no memory
/// but what the files take.
pub fn open_along<F: Files, const N: usize>(
    files: &mut F,
    plan: &[Entry<'_>],
) -> Result<[u32; N], Stopped>
    requires length { length plan.now ≡ N }
    ensures along { CameAlong (places_of plan.now) (F.view files.old) (F.view files.new) }
    ensures came { IfOk result (λ opened. Came (places_of plan.now) opened (F.view files.old) (F.view files.new)) }
    ensures empty { OnOk result (IsTrue (F.view files.old).tells → AreEmpty (F.view files.new) (places_of plan.now)) }
    ensures said { (F.view files.new).said ≡ (F.view files.old).said }
    ensures counts { OnOk result (SameCounts (F.view files.old) (F.view files.new)) }
    ensures within { IfErr result (λ stopped. stopped.at < length plan.now) }
    ensures failed { IfErr result (λ stopped. stopped.trouble ≡ trouble.Failed → (e : Place) → slice_get (places_of plan.now) stopped.at ≡ Some e
        → IsRefused (F.view files.old) (F.view files.new) e) }
{
    let mut opened = [0; N];
    for (i, entry) in plan.iter().enumerate() {
        match open_next(files, entry) {
            Ok(file) => opened[i] = file,
            Err(trouble) => return Err(Stopped { at: i, trouble }),
        }
    }
    Ok(opened)
}
