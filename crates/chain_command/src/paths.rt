// Writing what became of each packet.
ghost use Rattle.std.specs.Prelude.{◌≡◌, [], ℕ, Some, IsErrOf, IsSome, IsTrue, OnOk, OnErr};
ghost use Rattle.file_plans.specs.Parts.{part_number};
ghost use Rattle.file_plans.specs.Plan.{place_of, written_place};
ghost use Rattle.file_plans.specs.declared.part.Part.TheVariants as part;
ghost use Rattle.play_base.specs.View.{Rose, SameCounts, WriteFault, Wrote};
ghost use Rattle.play_chain.specs.Stands.{text_of};
ghost use Rattle.play_chain.specs.Tables.{text_in};
ghost use Rattle.run_outcomes.specs.Faults.{WriteFailed};
ghost use Rattle.chain_command.specs.Writing.{AddsFile, WroteSome};

use file_plans::{Entry, Part, Way, open_next};
use play_base::{Files, NoMemory, Trouble, write_all};
use play_chain::{Firsts, Path, Seconds, path_header};
use std::alloc::Global;

// Writes the head row, and then piece by piece the rows of all numbers.
#[tactic(auto, using(play_base::proofs::ViewLaws::same_trans, play_base::proofs::ViewLaws::same_refl))]
fn write_rows<F: Files>(files: &mut F, file: u32, path: &Path) -> Result<(), Trouble>
    requires there { IsSome ((F.view files.old).part file) }
    ensures wrote { OnOk result (Wrote (F.view files.old) (F.view files.new) file (text_of path.now)) }
    ensures front { OnErr result (WroteSome (F.view files.old) (F.view files.new) file (text_of path.now)) }
    ensures failed { IsErrOf result Trouble.Failed → WriteFault (F.view files.old) (F.view files.new) file }
    ensures no_fault { OnOk result (SameCounts (F.view files.old) (F.view files.new)) }
{
    match write_all(files, file, path_header()) {
        Ok(()) => {}
        Err(trouble) => return Err(trouble),
    }
    let mut from = 0;
    while from < path.bound() {
        let Ok(piece) = path.piece_from(from) else {
            return Err(Trouble::NoMemory);
        };
        match write_all(files, file, piece.text.as_slice()) {
            Ok(()) => {}
            Err(trouble) => return Err(trouble),
        }
        from = piece.next;
    }
    Ok(())
}

/// Creates the file of the paths, and writes there the paths of all packets by the tables of both plays, a piece after another. No
/// name's bytes change before that is created.
#[tactic(auto, using(play_base::proofs::ViewLaws::same_trans, play_base::proofs::ViewLaws::same_refl))]
pub fn write_paths<F: Files>(
    alloc: Global,
    files: &mut F,
    name: &str,
    firsts: Firsts,
    seconds: Seconds,
) -> Result<(), Trouble>
    ensures whole { OnOk result (IsTrue (F.view files.old).tells → (F.view files.new).bytes name.now ≡ Some (text_in firsts seconds)) }
    ensures adds { AddsFile (F.view files.old) (F.view files.new) (written_place part.Path name.now) (text_in firsts seconds) }
    ensures failed { IsErrOf result Trouble.Failed → WriteFailed (F.view files.old) (F.view files.new) (part_number part.Path) }
    ensures no_fault { OnOk result (SameCounts (F.view files.old) (F.view files.new)) }
{
    let path = match Path::through(alloc, firsts, seconds) {
        Ok(path) => path,
        Err(NoMemory) => return Err(Trouble::NoMemory),
    };
    let entry = Entry {
        part: Part::Path,
        name,
        way: Way::Written,
    };
    let file = match open_next(files, &entry) {
        Ok(file) => file,
        Err(trouble) => return Err(trouble),
    };
    match write_rows(files, file, &path) {
        Ok(()) => Ok(()),
        Err(trouble) => Err(trouble),
    }
}
