// Reading the files that are verified.
ghost use Rattle.std.specs.Prelude.{◌≡◌, ◌≤◌, ◌^◌, ◌⊎◌, length, IsTrue, IfErr, IfOk, OnErr, OnOk};
ghost use Rattle.conf_laws.specs.Fit.{IsInterface};
ghost use Rattle.file_plans.specs.Parts.{part_number};
ghost use Rattle.file_plans.specs.Plan.{read_place};
ghost use Rattle.file_plans.specs.declared.part.Part.TheVariants as part;
ghost use Rattle.play_base.specs.View.{Opened, SameCounts, Unchanged};
ghost use Rattle.verify_command.specs.Reading.{FileCauses, HoldsFates, MayHaveRead, WasRead, fates_failure, read_failure};
ghost use Rattle.verify_command.specs.Verifying.{Holds};

use conf_tree::Interface;
use file_plans::Part;
use given_fates::{Fates, FatesFault, read_fates as read_left};
use input_files::read_front;
use interface_policy::names_of;
use play_base::{Files, Trouble};
use run_outcomes::Failure;
use std::alloc::Global;

/// The most bytes of departures.
const MOST: usize = 1 << 30;

// What trouble with the reading of a file ends the command as.
fn read_failure(part: Part, trouble: Trouble) -> Failure
    ensures { result ≡ read_failure part trouble }
{
    match trouble {
        Trouble::Failed => Failure::Read(part),
        Trouble::NoMemory => Failure::NoMemory,
    }
}

// And fates that are not had whole.
fn fates_failure(fault: FatesFault) -> Failure
    ensures { result ≡ fates_failure fault }
{
    match fault {
        FatesFault::TooLong => Failure::TooLong(Part::Fates),
        FatesFault::Read => Failure::Read(Part::Fates),
        FatesFault::NoMemory => Failure::NoMemory,
    }
}

// Opens a file to read it.
#[tactic(auto, using(crate::proofs::FileLemmas::unopened))]
fn open_file<F: Files>(files: &mut F, part: Part, name: &str) -> Result<u32, Failure>
    ensures opened { IfOk result (λ file. Opened (F.view files.old) (F.view files.new) (part_number part) name.now file) }
    ensures counts { OnOk result (SameCounts (F.view files.old) (F.view files.new)) }
    ensures refused { OnErr result (Unchanged (F.view files.old) (F.view files.new)) }
    ensures why { IfErr result (FileCauses (F.view files.old) (F.view files.new) part name.now) }
{
    match files.open(part.number(), name) {
        Ok(file) => Ok(file),
        Err(trouble) => Err(read_failure(part, trouble)),
    }
}

/// All departures under a name, if there are at most 2^30 bytes.
#[tactic(auto, using(play_base::proofs::ViewLaws::same_trans, play_base::proofs::ViewLaws::same_refl))]
pub(crate) fn read_departures<F: Files>(
    alloc: Global,
    files: &mut F,
    name: &str,
) -> Result<Vec<u8>, Failure>
    ensures whole { IfOk result (λ all. IsTrue (F.view files.old).tells → Holds (F.view files.old) name.now all.items) }
    ensures read { OnOk result (WasRead (F.view files.old) (F.view files.new) (read_place part.Departures name.now)) }
    ensures tried { MayHaveRead (F.view files.old) (F.view files.new) (read_place part.Departures name.now) }
    ensures why { IfErr result (FileCauses (F.view files.old) (F.view files.new) part.Departures name.now) }
    ensures counts { OnOk result (SameCounts (F.view files.old) (F.view files.new)) }
{
    let file = open_file(files, Part::Departures, name)?;
    let all = match read_front(alloc, files, file, MOST + 1) {
        Ok(all) => all,
        Err(trouble) => return Err(read_failure(Part::Departures, trouble)),
    };
    if all.len() > MOST {
        return Err(Failure::TooLong(Part::Departures));
    }
    Ok(all)
}

/// The fates under a name, by the names of an interface's classes, if there are at most 2^30 bytes.
#[tactic(auto, using(play_base::proofs::ViewLaws::same_trans, play_base::proofs::ViewLaws::same_refl))]
pub(crate) fn read_fates<F: Files>(
    alloc: Global,
    files: &mut F,
    interface: &Interface,
    name: &str,
) -> Result<Fates, Failure>
    requires fits { IsInterface interface.now }
    ensures whole { IfOk result (λ fates. IsTrue (F.view files.old).tells → HoldsFates (F.view files.old) interface.now name.now fates) }
    ensures read { OnOk result (WasRead (F.view files.old) (F.view files.new) (read_place part.Fates name.now)) }
    ensures tried { MayHaveRead (F.view files.old) (F.view files.new) (read_place part.Fates name.now) }
    ensures why { IfErr result (FileCauses (F.view files.old) (F.view files.new) part.Fates name.now) }
    ensures counts { OnOk result (SameCounts (F.view files.old) (F.view files.new)) }
{
    let Ok(names) = names_of(alloc, interface) else {
        return Err(Failure::NoMemory);
    };
    let file = open_file(files, Part::Fates, name)?;
    match read_left(alloc, files, file, &names) {
        Ok(fates) => Ok(fates),
        Err(fault) => Err(fates_failure(fault)),
    }
}
