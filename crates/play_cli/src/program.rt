// The one public call: from the words of the command line to what came of them.
ghost use Rattle.std.specs.Prelude.{◌≡◌, IfOk, Some};
ghost use Rattle.play_words.specs.Words.{refusal};
ghost use Rattle.run_outcomes.specs.Outcome.{status_of};
ghost use Rattle.run_outcomes.specs.Truth.{TellsTruly};
ghost use Rattle.command_form.specs.Ends.{Ends};
ghost use Rattle.play_cli.specs.Run.{AreFit, EndsRead, Follows, MayEndAsMemory, RunEnds, SteadyRunsMeetNoFault, plan_of};

use bound_command::bound;
use chain_command::chain;
use check_command::check;
use condition_command::condition;
use make_command::make;
use play_base::Files;
use play_command::play;
use play_words::{Command, Unread, read_words};
use run_outcomes::{Done, Failure, Status, report, status_of};
use shares_command::shares;
use std::alloc::Global;
use verify_command::verify;

/// What came of a run, and its words as they were read.
#[derive(Clone, Copy)]
pub struct Ran<'w> {
    pub read: Result<Command<'w>, Unread>,
    pub outcome: Result<Done, Failure>,
}

// Runs a command, and prints no message.
fn run_command<F: Files>(
    alloc: Global,
    files: &mut F,
    command: &Command<'_>,
) -> Result<Done, Failure>
    requires { AreFit command.now }
    ensures { EndsRead (F.view files.old) (F.view files.new) command.now result }
{
    match *command {
        Command::Play(words) => play(alloc, files, &words),
        Command::Check(words) => check(alloc, files, &words),
        Command::Make(words) => make(alloc, files, &words),
        Command::Verify(words) => verify(alloc, files, &words),
        Command::Shares(words) => shares(alloc, files, &words),
        Command::Chain(words) => chain(alloc, files, &words),
        Command::Bound(words) => bound(alloc, files, &words),
        Command::Condition(words) => condition(alloc, files, &words),
    }
}

// What comes of words that were read: of the command that they ask for, before its message.
fn outcome_of<F: Files>(
    alloc: Global,
    files: &mut F,
    read: &Result<Command<'_>, Unread>,
) -> Result<Done, Failure>
    requires { IfOk read.now AreFit }
    ensures { Follows (F.view files.old) (F.view files.new) read.now result }
{
    match *read {
        Ok(command) => run_command(alloc, files, &command),
        Err(Unread::Refused(fault)) => Err(Failure::Words(fault)),
        Err(Unread::NoMemory) => Err(Failure::NoMemory),
    }
}

/// All that the program does. `words` are the words behind the program's name.
///
/// `play --config C --interface I --arrivals A --departures D --fates T --stats Z --seed N` plays the capture A through the queues
/// that the configuration C gives the interface I, and a link of its rate, by HFSC or CBQ as C says and by the random words of the
/// seed N, and writes the departures to D, the fates to T, and at the end the statistics to Z. Nothing is created before the
/// configuration is accepted and the arrivals are open, fates only after departures, and statistics only after fates. Frames are
/// placed by the filters of the interface. At most 2^20 + 1 bytes of C are read. `check --config C --interface I` prints the
/// canonical text of the configuration C, where it has the interface I, and in a last line whether the real-time curves of I fit
/// its link; the kind is 1 where they exceed it. `make --count K` with the options of `play` writes the capture of the first K
/// packets of the seed N to A, once the configuration is accepted, then plays it as `play` does, and prints the summary of that.
/// `shares` with the options of `play` plays as it does, and prints of each pair of sibling classes of HFSC how far their work lay
/// apart. `verify --config C --interface I --arrivals A --departures D --fates T` holds the departures D and the fates T, whoever made
/// them, to the interface and the arrivals, creates nothing, and prints how close each leaf came to its due moments, or the first row
/// of the least test that fails. `chain` with the options of `play` and `--next J --departures2 D2 --fates2 T2 --stats2 Z2 --path P`
/// plays as `play` does, then plays D on the interface J into D2, T2 and Z2, with the words of the same seed from their beginning, and
/// writes to P what became of each arrival. `condition --config C --interface I --arrivals A --marked M` writes to M what the conditioners
/// of the interface make of the capture A. `bound --config C --interface I --longest L --burst B` says how late a packet of each leaf can be
/// sent. A capture A is classic or pcapng; pcapng is read whole before anything is created.
/// Options come in any order, as `--name VALUE` or `--name=VALUE`. After every status but 0 its message is printed, a line that
/// `message_of` gives; a `play`, a `chain` or a `condition` that is done prints nothing.
///
/// `ends` says how: by the command that the words name, whatever came of it (`PlayEnds`, `CheckEnds` and so on, of one form, `CommandEnds`);
/// the status is `status_of` the outcome, and its message, `message_of` a failure, was printed. For files whose bytes are known, what is done
/// means the headline of `HasPlayed`, `HasChecked` and so on. Status 8 means that memory ran out; no clause says when that happens.
pub fn run_read<'w, F: Files>(alloc: Global, words: &'w [String], files: &mut F) -> Ran<'w>
    // What came of it, whatever that was: by the refusal of the words, and then by the command that they name.
    ensures ends { Ends (RunEnds (F.view files.old) words.now) (F.view files.new) (status_of result.outcome) }
    // What the status says of faults is so, of a disk too.
    ensures truly { TellsTruly (plan_of words.now) (F.view files.old) (F.view files.new) (status_of result.outcome) }
    // Words are refused with the kind of the first test that they fail, and nothing else has status 2.
    ensures words { (status_of result.outcome).code ≡ 2 → refusal words.now ≡ Some (status_of result.outcome).kind }
{
    let read = read_words(alloc, words);
    let came = outcome_of(alloc, files, &read);
    let outcome = report(alloc, files, came);
    Ran { read, outcome }
}

/// The same, of which the status alone is given.
pub fn run<F: Files>(alloc: Global, words: &[String], files: &mut F) -> Status
    ensures ends { Ends (RunEnds (F.view files.old) words.now) (F.view files.new) result }
    ensures truly { TellsTruly (plan_of words.now) (F.view files.old) (F.view files.new) result }
    ensures words { result.code ≡ 2 → refusal words.now ≡ Some result.kind }
{
    let ran = run_read(alloc, words, files);
    status_of(ran.outcome)
}

/// Over files that never fail and have every name, no fault of reading or writing is told; and a run may end as want of memory where it ends
/// as any failure.
#[tactic(auto, using(crate::proofs::RunLaws::steady_meet_none, crate::proofs::RunLaws::may_run_as_memory))]
pub fn steady_runs_meet_no_fault()
    ensures steady { SteadyRunsMeetNoFault }
    ensures memory { MayEndAsMemory }
{}
