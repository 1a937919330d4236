// What is printed of what came of a command.
ghost use Rattle.std.specs.Prelude.{◌≡◌, ◌⊎◌, IfErr, IsErr, IsErrOf, OnOk, OnErr, Err};
ghost use Rattle.play_base.specs.View.{Rose, Said, SameCounts, Unchanged};
ghost use Rattle.file_plans.specs.Parts.{printed};
ghost use Rattle.run_outcomes.specs.Faults.{WriteFailed};
ghost use Rattle.run_outcomes.specs.Message.{message_of, out_of_memory};
ghost use Rattle.run_outcomes.specs.Reported.{IsReported, OnlySays, SaysOrNot};
ghost use Rattle.run_outcomes.specs.declared.outcome.Failure.TheVariants as failure;

use crate::message::{OUT_OF_MEMORY, message};
use crate::outcome::{Done, Failure};
use play_base::{Files, Trouble};
use std::alloc::Global;

/// Prints what a command answers: all of it, or nothing. `Unsaid` comes only where the count of write faults of part 0 rose.
pub fn say_answer<F: Files>(files: &mut F, text: &[u8]) -> Result<(), Failure>
    ensures said { OnOk result (Said (F.view files.old) (F.view files.new) text.now) }
    ensures counts { OnOk result (SameCounts (F.view files.old) (F.view files.new)) }
    ensures refused { OnErr result (Unchanged (F.view files.old) (F.view files.new)) }
    ensures why { IfErr result (λ f. (f ≡ failure.NoMemory) ⊎ ((f ≡ failure.Unsaid) × WriteFailed (F.view files.old) (F.view files.new) printed)) }
{
    match files.say(text) {
        Ok(()) => Ok(()),
        Err(Trouble::Failed) => Err(Failure::Unsaid),
        Err(Trouble::NoMemory) => Err(Failure::NoMemory),
    }
}

// Prints the message of what ended a command early.
fn say_message<F: Files>(alloc: Global, files: &mut F, failure: Failure) -> Result<(), Trouble>
    ensures said { OnOk result (Said (F.view files.old) (F.view files.new) (message_of failure)) }
    ensures refused { OnErr result (Unchanged (F.view files.old) (F.view files.new)) }
    ensures failed { IsErrOf result Trouble.Failed →
        Rose ((F.view files.old).write_faults 0) ((F.view files.new).write_faults 0) }
{
    match message(alloc, failure) {
        Ok(text) => files.say(text.as_bytes()),
        Err(_) => Err(Trouble::NoMemory),
    }
}

// Prints that memory ran out. That message is a constant, so it can still be printed.
fn say_no_memory<F: Files>(files: &mut F)
    ensures only { OnlySays (F.view files.old) (F.view files.new) }
    ensures said { SaysOrNot (F.view files.old) (F.view files.new) out_of_memory }
{
    let _ = files.say(OUT_OF_MEMORY.as_bytes());
}

#[tactic(auto, using(crate::proofs::ReportLemmas::said_reported, crate::proofs::ReportLemmas::unsaid_reported, crate::proofs::ReportLemmas::memory_reported))]
/// Prints the message of what ended a command early, and nothing where it is done, and gives back what came of it. If the message cannot be
/// printed that stays the same; where no memory is left for the message it is `NoMemory`.
pub fn report<F: Files>(
    alloc: Global,
    files: &mut F,
    outcome: Result<Done, Failure>,
) -> Result<Done, Failure>
    ensures reported { IsReported (F.view files.old) (F.view files.new) result }
    ensures same { (result ≡ outcome) ⊎ ((result ≡ Err failure.NoMemory) × IsErr outcome) }
{
    let Err(failure) = outcome else {
        return outcome;
    };
    match say_message(alloc, files, failure) {
        Ok(()) | Err(Trouble::Failed) => Err(failure),
        Err(Trouble::NoMemory) => {
            say_no_memory(files);
            Err(Failure::NoMemory)
        }
    }
}
