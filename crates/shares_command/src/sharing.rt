// The command `shares`.
ghost use Rattle.command_form.specs.Names.{names_read};
ghost use Rattle.play_words.specs.Words.{AreDistinct};
ghost use Rattle.shares_command.specs.Ending.{SharesEnds};

use crate::measuring::play_lines;
use command_form::unready_failure;
use interface_play::play_failure;
use play_base::Files;
use play_command::play_of;
use play_words::PlayWords;
use run_inputs::{Asking, found, read_inputs};
use run_outcomes::{Done, Failure, Link, say_answer};
use std::alloc::Global;

/// Does what `play` does, and then says a line for each pair of sibling classes of the interface, in the order of the file of the
/// first, then of the second: their names, how far apart their work was, at most, while both were active, in nanoseconds at the rates
/// of both, and the bound that it keeps, or `none`. Where a curve of the two bends there is no gap, and where a class has an upper
/// limit or a real-time curve that is not 0 everywhere no bound. An interface of CBQ has no pairs, and nothing is said of it.
///
/// It fails as `play` does; as `Unsaid` where the lines could not be said; and as `NoMemory`. Lines are said only behind a play that is
/// done.
pub fn shares<F: Files>(
    alloc: Global,
    files: &mut F,
    words: &PlayWords<'_>,
) -> Result<Done, Failure>
    requires { AreDistinct words.now.config.now words.now.arrivals.now words.now.departures.now words.now.fates.now words.now.stats.now }
    ensures { SharesEnds (F.view files.old) (F.view files.new) (names_read words.now) words.now.seed result }
{
    let asking = Asking {
        config: words.config,
        interface: words.interface,
        next: None,
    };
    let (read, arrivals) = match read_inputs(alloc, files, &asking, words.arrivals) {
        Ok(both) => both,
        Err(unready) => return Err(unready_failure(Link::Sole, unready)),
    };
    let interface = found(&read.conf, words.interface);
    let play = play_of(words, interface, arrivals.file, &arrivals.given);
    let text = match play_lines(alloc, files, &play) {
        Ok(text) => text,
        Err(fault) => return Err(play_failure(Link::Sole, &play, fault)),
    };
    match say_answer(files, text.as_bytes()) {
        Ok(()) => Ok(Done::Done),
        Err(failure) => Err(failure),
    }
}
