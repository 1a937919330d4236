// The arrivals of `make`: they are written, and then opened as those of a play.
ghost use Rattle.std.specs.Prelude.{◌≡◌, ◌≤◌, ◌⊎◌, [], ◌∷◌, ℕ, List, true, Some, length, IfOk, IfErr, IsTrue, OnOk};
ghost use Rattle.file_plans.specs.declared.part.Part.TheVariants as part;
ghost use Rattle.file_plans.specs.Came.{Came, CameAlong};
ghost use Rattle.file_plans.specs.Parts.{part_number};
ghost use Rattle.file_plans.specs.Plan.{read_place, written_place};
ghost use Rattle.generated.specs.Packets.{generated_capture, most_packets};
ghost use Rattle.pcapng_files.specs.Fronts.{with_front};
ghost use Rattle.play_base.specs.View.{IsAbsent, SameCounts};
ghost use Rattle.run_outcomes.specs.Faults.{ReadFailed, WriteFailed};
ghost use Rattle.run_outcomes.specs.declared.outcome.Failure.TheVariants as failure;
ghost use Rattle.interface_play.specs.Fronts.{IsFrontAt};

use arrivals_front::{Given, take_to};
use file_plans::{Entry, Part, Way, open_next};
use generated::write_capture;
use play_base::{Files, Trouble};
use play_words::MakeWords;
use run_outcomes::Failure;
use std::alloc::Global;

/// Creates the arrivals, and writes the capture of the first packets of the seed. It fails as `Write` of them, and as `NoMemory`.
#[tactic(auto, using(play_base::proofs::ViewLaws::same_trans, crate::proofs::ArrivalsLemmas::came_not, crate::proofs::ArrivalsLemmas::written_came, crate::proofs::ArrivalsLemmas::unwritten_front, crate::proofs::ArrivalsLemmas::write_rose))]
pub fn write_arrivals<F: Files>(
    alloc: Global,
    files: &mut F,
    words: &MakeWords<'_>,
) -> Result<(), Failure>
    requires { words.now.count ≤ most_packets }
    ensures along { CameAlong (written_place part.Arrivals words.now.play.arrivals.now ∷ []) (F.view files.old) (F.view files.new) }
    ensures came { OnOk result ((file : ℕ) × Came (written_place part.Arrivals words.now.play.arrivals.now ∷ []) (file ∷ []) (F.view files.old) (F.view files.new)) }
    ensures whole { OnOk result (IsTrue (F.view files.old).tells
        → (F.view files.new).bytes words.now.play.arrivals.now ≡ Some (generated_capture words.now.play.seed words.now.count)) }
    ensures front { IsTrue (F.view files.old).tells → IsFrontAt (F.view files.old) (F.view files.new)
        (written_place part.Arrivals words.now.play.arrivals.now) (generated_capture words.now.play.seed words.now.count) }
    ensures why { IfErr result (λ f. (f ≡ failure.NoMemory)
        ⊎ ((f ≡ failure.Write part.Arrivals) × WriteFailed (F.view files.old) (F.view files.new) (part_number part.Arrivals))) }
    ensures said { (F.view files.new).said ≡ (F.view files.old).said }
    ensures counts { OnOk result (SameCounts (F.view files.old) (F.view files.new)) }
{
    let entry = Entry {
        part: Part::Arrivals,
        name: words.play.arrivals,
        way: Way::Written,
    };
    let file = match open_next(files, &entry) {
        Ok(file) => file,
        Err(Trouble::Failed) => return Err(Failure::Write(Part::Arrivals)),
        Err(Trouble::NoMemory) => return Err(Failure::NoMemory),
    };
    match write_capture(alloc, files, file, words.play.seed, words.count) {
        Ok(()) => Ok(()),
        Err(Trouble::Failed) => Err(Failure::Write(Part::Arrivals)),
        Err(Trouble::NoMemory) => Err(Failure::NoMemory),
    }
}

/// Opens the arrivals, and takes their first four bytes, as of every classic capture. It fails as `Read` of them, and as `NoMemory`.
#[tactic(auto, using(play_base::proofs::ViewLaws::same_trans, crate::proofs::ArrivalsLemmas::came_not))]
pub fn open_arrivals<F: Files>(
    alloc: Global,
    files: &mut F,
    name: &str,
) -> Result<(u32, Given), Failure>
    ensures along { CameAlong (read_place part.Arrivals name.now ∷ []) (F.view files.old) (F.view files.new) }
    ensures came { IfOk result (λ x. Came (read_place part.Arrivals name.now ∷ []) (x.0 ∷ []) (F.view files.old) (F.view files.new)) }
    ensures rest { IfOk result (λ x. x.1.rest ≡ true) }
    ensures few { IfOk result (λ x. length x.1.front.items ≤ 4) }
    ensures behind { IfOk result (λ x. IsTrue (F.view files.old).tells → (bytes : List ℕ) → (F.view files.old).bytes name.now ≡ Some bytes
        → with_front true true x.1.front.items ((F.view files.new).left x.0) ≡ Some bytes) }
    ensures why { IfErr result (λ f. (f ≡ failure.NoMemory) ⊎ ((f ≡ failure.Read part.Arrivals)
        × (ReadFailed (F.view files.old) (F.view files.new) (part_number part.Arrivals) ⊎ IsAbsent (F.view files.old) name.now))) }
    ensures said { (F.view files.new).said ≡ (F.view files.old).said }
    ensures counts { OnOk result (SameCounts (F.view files.old) (F.view files.new)) }
{
    let entry = Entry {
        part: Part::Arrivals,
        name,
        way: Way::Read,
    };
    let file = match open_next(files, &entry) {
        Ok(file) => file,
        Err(Trouble::Failed) => return Err(Failure::Read(Part::Arrivals)),
        Err(Trouble::NoMemory) => return Err(Failure::NoMemory),
    };
    let mut front = Vec::new(alloc);
    match take_to(files, file, &mut front, 4) {
        Ok(()) => Ok((file, Given { front, rest: true })),
        Err(Trouble::Failed) => Err(Failure::Read(Part::Arrivals)),
        Err(Trouble::NoMemory) => Err(Failure::NoMemory),
    }
}
