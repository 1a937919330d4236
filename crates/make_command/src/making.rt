// Generating a capture, and playing it.
ghost use Rattle.std.specs.Prelude.{◌≡◌, ◌≤◌, ◌⊎◌, IfErr, OnErr, OnOk};
ghost use Rattle.command_form.specs.Names.{names_read};
ghost use Rattle.file_plans.specs.Parts.{printed};
ghost use Rattle.generated.specs.Packets.{most_packets};
ghost use Rattle.make_command.specs.Ending.{MakeEnds};
ghost use Rattle.make_command.specs.Made.{summary_of};
ghost use Rattle.play_base.specs.View.{Said, SameCounts, Unchanged};
ghost use Rattle.play_words.specs.Words.{AreDistinct};
ghost use Rattle.run_outcomes.specs.Faults.{WriteFailed};
ghost use Rattle.run_outcomes.specs.declared.outcome.Failure.TheVariants as failure;

use crate::arrivals::{open_arrivals, write_arrivals};
use command_form::unready_failure;
use interface_play::{play_failure, play_source};
use play_base::Files;
use play_chain::Tables;
use play_command::play_of;
use play_loop::Totals;
use play_text::summary_text;
use play_words::MakeWords;
use run_inputs::{Asking, found, read_configuration};
use run_outcomes::{Done, Failure, Link, say_answer};
use std::alloc::Global;

// Says the summary of a play.
fn say_summary<F: Files>(alloc: Global, files: &mut F, totals: Totals) -> Result<(), Failure>
    ensures said { OnOk result (Said (F.view files.old) (F.view files.new) (summary_of totals)) }
    ensures counts { OnOk result (SameCounts (F.view files.old) (F.view files.new)) }
    ensures refused { OnErr result (Unchanged (F.view files.old) (F.view files.new)) }
    ensures why { IfErr result (λ f. (f ≡ failure.NoMemory) ⊎ ((f ≡ failure.Unsaid) × WriteFailed (F.view files.old) (F.view files.new) printed)) }
{
    match summary_text(
        alloc,
        totals.arrived,
        totals.sent,
        totals.dropped,
        totals.last_end,
    ) {
        Ok(text) => say_answer(files, text.as_bytes()),
        Err(_) => Err(Failure::NoMemory),
    }
}

/// Writes the capture of the first `count` packets of the seed under the arrivals' name, once the configuration is accepted, plays it
/// as `play` does, and prints the summary of that.
///
/// The capture is read again behind its writing, and departures are created only behind that. It fails as the configuration stops it; as
/// `play` does, but that a generated capture has no damage and is at no limit; as `Write` or `Read` of the arrivals; as `Unsaid` where the
/// summary could not be printed; and as `NoMemory`.
pub fn make<F: Files>(alloc: Global, files: &mut F, words: &MakeWords<'_>) -> Result<Done, Failure>
    requires distinct { AreDistinct words.now.play.config.now words.now.play.arrivals.now words.now.play.departures.now
        words.now.play.fates.now words.now.play.stats.now }
    requires few { words.now.count ≤ most_packets }
    ensures { MakeEnds (F.view files.old) (F.view files.new) (names_read words.now.play) words.now.play.seed words.now.count result }
{
    let asking = Asking {
        config: words.play.config,
        interface: words.play.interface,
        next: None,
    };
    let read = match read_configuration(alloc, files, &asking) {
        Ok(read) => read,
        Err(unready) => return Err(unready_failure(Link::Sole, unready)),
    };
    match write_arrivals(alloc, files, words) {
        Ok(()) => {}
        Err(failure) => return Err(failure),
    }
    let (file, given) = match open_arrivals(alloc, files, words.play.arrivals) {
        Ok(opened) => opened,
        Err(failure) => return Err(failure),
    };
    let interface = found(&read.conf, words.play.interface);
    let play = play_of(&words.play, interface, file, &given);
    let totals = match play_source(alloc, files, &play, &mut Tables::Nothing) {
        Ok(totals) => totals,
        Err(fault) => return Err(play_failure(Link::Sole, &play, fault)),
    };
    match say_summary(alloc, files, totals) {
        Ok(()) => Ok(Done::Done),
        Err(failure) => Err(failure),
    }
}
