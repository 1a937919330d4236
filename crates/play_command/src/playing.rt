// Playing a capture.
ghost use Rattle.std.specs.Prelude.{◌≡◌};
ghost use Rattle.command_form.specs.Names.{names_read};
ghost use Rattle.file_plans.specs.Plan.{place_of};
ghost use Rattle.interface_play.specs.Source.{places_in};
ghost use Rattle.play_command.specs.Ending.{PlayEnds};
ghost use Rattle.play_command.specs.Headline.{sole_of};
ghost use Rattle.play_words.specs.Words.{AreDistinct};

use arrivals_front::Given;
use command_form::unready_failure;
use conf_tree::Interface;
use file_plans::{Entry, Part, Way};
use interface_play::{Play, play_failure, play_source};
use play_base::Files;
use play_chain::Tables;
use play_words::PlayWords;
use run_inputs::{Asking, found, read_inputs};
use run_outcomes::{Done, Failure, Link};
use std::alloc::Global;

// A file of a play.
fn entry(part: Part, name: &str, way: Way) -> Entry<'_>
    ensures { place_of result ≡ record { part = part; name = name.now; way = way } }
{
    Entry { part, name, way }
}

/// The play of the words by this interface, of arrivals that were opened and begun.
pub fn play_of<'a, 'w: 'a>(
    words: &PlayWords<'w>,
    interface: &'a Interface,
    file: u32,
    given: &'a Given,
) -> Play<'a>
    ensures interface { result.interface.now ≡ interface.now }
    ensures given { result.given.now ≡ given.now }
    ensures file { result.file ≡ file }
    ensures seed { result.seed ≡ words.now.seed }
    ensures places { places_in result ≡ sole_of (names_read words.now) }
{
    Play {
        interface,
        seed: words.seed,
        given,
        file,
        arrivals: entry(Part::Arrivals, words.arrivals, Way::Read),
        departures: entry(Part::Departures, words.departures, Way::Written),
        fates: entry(Part::Fates, words.fates, Way::Written),
        stats: entry(Part::Statistics, words.stats, Way::Written),
    }
}

/// Plays the capture under the arrivals' name through the queues that the configuration gives the interface, and a link of its rate,
/// by HFSC or CBQ and by the random words of the seed; writes departures, fates and statistics, and prints nothing.
///
/// Nothing is created before the configuration is accepted and the arrivals are begun, fates only after departures, and statistics only
/// after fates. It fails as the inputs stop it; as `Capture` at the first test that a classic capture fails, once all complete records
/// before it are played, and where a sending would end too late; as `Read` or `Write` where a call on that file failed; and as `NoMemory`.
pub fn play<F: Files>(alloc: Global, files: &mut F, words: &PlayWords<'_>) -> Result<Done, Failure>
    requires { AreDistinct words.now.config.now words.now.arrivals.now words.now.departures.now words.now.fates.now words.now.stats.now }
    ensures { PlayEnds (F.view files.old) (F.view files.new) (names_read words.now) words.now.seed result }
{
    let asking = Asking {
        config: words.config,
        interface: words.interface,
        next: None,
    };
    let (read, arrivals) = match read_inputs(alloc, files, &asking, words.arrivals) {
        Ok(both) => both,
        Err(unready) => return Err(unready_failure(Link::Sole, unready)),
    };
    let interface = found(&read.conf, words.interface);
    let play = play_of(words, interface, arrivals.file, &arrivals.given);
    match play_source(alloc, files, &play, &mut Tables::Nothing) {
        Ok(_) => Ok(Done::Done),
        Err(fault) => Err(play_failure(Link::Sole, &play, fault)),
    }
}
