// Creating the outputs of a play.
ghost use Rattle.std.specs.Prelude.{◌≡◌, ◌⊎◌, [], ◌∷◌, Some, IfErr, IfOk, IsTrue, OnErr, OnOk};
ghost use Rattle.file_plans.specs.Came.{AreEmpty, Came, CameAlong};
ghost use Rattle.file_plans.specs.Plan.{number_of, place_of};
ghost use Rattle.file_plans.specs.declared.plan.Way.TheVariants as way;
ghost use Rattle.interface_play.specs.Source.{AreSeparate, outputs_at, places_in};
ghost use Rattle.interface_play.specs.Steps.{AreBare, IsUncreated};
ghost use Rattle.play_base.specs.View.{SameCounts, Unchanged};
ghost use Rattle.play_loop.specs.declared.fault.PlayFault.TheVariants as fault;
ghost use Rattle.run_outcomes.specs.Faults.{WriteFailed};

use crate::play::Play;
use file_plans::{Entry, open_next};
use play_base::Files;
use play_loop::{Output, PlayFault, output_fault};

/// The numbers of the outputs of a play.
#[derive(Clone, Copy)]
pub(crate) struct Outputs {
    pub(crate) departures: u32,
    pub(crate) fates: u32,
    pub(crate) stats: u32,
}

// Creates one output.
fn create_output<F: Files>(
    files: &mut F,
    entry: &Entry<'_>,
    output: Output,
) -> Result<u32, PlayFault>
    requires written { entry.now.way ≡ way.Written }
    ensures came { IfOk result (λ file. Came (place_of entry.now ∷ []) (file ∷ []) (F.view files.old) (F.view files.new)) }
    ensures empty { OnOk result (IsTrue (F.view files.old).tells → (F.view files.new).bytes entry.now.name.now ≡ Some []) }
    ensures counts { OnOk result (SameCounts (F.view files.old) (F.view files.new)) }
    ensures said { (F.view files.new).said ≡ (F.view files.old).said }
    ensures refused { OnErr result (Unchanged (F.view files.old) (F.view files.new)) }
    ensures why { IfErr result (λ f. (f ≡ fault.NoMemory) ⊎ ((f ≡ fault.Write output) × WriteFailed (F.view files.old) (F.view files.new)
        (number_of (place_of entry.now)))) }
{
    match open_next(files, entry) {
        Ok(file) => Ok(file),
        Err(trouble) => Err(output_fault(output, trouble)),
    }
}

// Creates the outputs of a play, until one does not come to be.
pub(crate) fn create_outputs<F: Files>(files: &mut F, play: &Play<'_>) -> Result<Outputs, PlayFault>
    requires separate { AreSeparate (places_in play.now) }
    ensures along { CameAlong (outputs_at (places_in play.now)) (F.view files.old) (F.view files.new) }
    ensures came { IfOk result (λ o. Came (outputs_at (places_in play.now)) (o.departures ∷ o.fates ∷ o.stats ∷ []) (F.view files.old) (F.view files.new)) }
    ensures empty { OnOk result (IsTrue (F.view files.old).tells → AreEmpty (F.view files.new) (outputs_at (places_in play.now))) }
    ensures bare { AreBare (places_in play.now) (F.view files.old) (F.view files.new) }
    ensures why { IfErr result (IsUncreated (places_in play.now) (F.view files.old) (F.view files.new)) }
    ensures said { (F.view files.new).said ≡ (F.view files.old).said }
    ensures counts { OnOk result (SameCounts (F.view files.old) (F.view files.new)) }
{
    let departures = create_output(files, &play.departures, Output::Departures)?;
    let fates = create_output(files, &play.fates, Output::Fates)?;
    let stats = create_output(files, &play.stats, Output::Statistics)?;
    Ok(Outputs {
        departures,
        fates,
        stats,
    })
}
