// Playing a capture on two links in a row.
ghost use Rattle.std.specs.Prelude.{◌≡◌, [], true};
ghost use Rattle.command_form.specs.Names.{links_read};
ghost use Rattle.file_plans.specs.Plan.{Place, place_of};
ghost use Rattle.interface_play.specs.Source.{places_in};
ghost use Rattle.play_words.specs.Read.{files_of};
ghost use Rattle.play_words.specs.Words.{AreAllDistinct};
ghost use Rattle.chain_command.specs.Chaining.{ChainEnds};
ghost use Rattle.chain_command.specs.Names.{seconds_of};
ghost use Rattle.chain_command.specs.Writing.{failure_by};

use crate::paths::write_paths;
use arrivals_front::Given;
use command_form::unready_failure;
use conf_laws::configurations_fit;
use conf_tree::Interface;
use file_plans::{Entry, Part, Way, open_next};
use interface_play::{Play, play_failure, play_source};
use play_base::{Files, Trouble};
use play_chain::{Firsts, Seconds, Tables};
use play_command::play_of;
use play_words::ChainWords;
use run_inputs::{Asking, found, read_inputs};
use run_outcomes::{Done, Failure, Link};
use std::alloc::Global;

// A file of the plan.
fn entry(part: Part, name: &str, way: Way) -> Entry<'_>
    ensures { place_of result ≡ record { part = part; name = name.now; way = way } }
{
    Entry { part, name, way }
}

// The play on the second link, of what the first sent.
fn second_of<'a, 'w: 'a>(
    words: &ChainWords<'w>,
    interface: &'a Interface,
    file: u32,
    given: &'a Given,
) -> Play<'a>
    ensures interface { result.interface.now ≡ interface.now }
    ensures given { result.given.now ≡ given.now }
    ensures file { result.file ≡ file }
    ensures seed { result.seed ≡ words.now.play.seed }
    ensures places { places_in result ≡ seconds_of (links_read words.now) }
{
    Play {
        interface,
        seed: words.play.seed,
        given,
        file,
        arrivals: entry(Part::Departures, words.play.departures, Way::Read),
        departures: entry(Part::SecondDepartures, words.departures2, Way::Written),
        fates: entry(Part::SecondFates, words.fates2, Way::Written),
        stats: entry(Part::SecondStatistics, words.stats2, Way::Written),
    }
}

// Of what the first sent nothing is read before the second play.
fn unread(alloc: Global) -> Given
    ensures rest { result.rest ≡ true }
    ensures front { result.front.items ≡ [] }
{
    Given {
        front: Vec::new(alloc),
        rest: true,
    }
}

// What trouble with a file ends the command as, which is this failure but for want of memory.
fn failure_by(failure: Failure, trouble: Trouble) -> Failure
    ensures { result ≡ failure_by failure trouble }
{
    match trouble {
        Trouble::Failed => failure,
        Trouble::NoMemory => Failure::NoMemory,
    }
}

/// Plays the capture under the arrivals' name on the link of one interface, as `play` does, and then what left that on the link of a
/// second, with the words of the same seed from their beginning; then writes a row for each arrival: whether the first link dropped it,
/// the second did, or at which moment it left the second. It prints nothing.
///
/// Nothing is created before the configuration is accepted with both interfaces and the arrivals are begun, nothing of the second link
/// before the first play is done, and the paths only after the second is. It fails as the inputs stop it; as `Capture` of the first link
/// where the arrivals are no capture or are too long, or a packet would end too late, and of the second where a packet of its play would;
/// as `Read` of the arrivals, or of the departures of the first link, and as `Write`, where a call on that file failed; and as `NoMemory`.
///
/// Besides what `play` takes it holds a table of the fates of each play, 24 bytes for each arrival of the first and 16 for each of the
/// second and the room by which a `Vec` grows; no clause bounds that.
pub fn chain<F: Files>(
    alloc: Global,
    files: &mut F,
    words: &ChainWords<'_>,
) -> Result<Done, Failure>
    requires { AreAllDistinct (files_of words.now) }
    ensures { ChainEnds (F.view files.old) (F.view files.new) (links_read words.now) words.now.play.seed result }
{
    configurations_fit();
    let asking = Asking {
        config: words.play.config,
        interface: words.play.interface,
        next: Some(words.next),
    };
    let (read, arrivals) = match read_inputs(alloc, files, &asking, words.play.arrivals) {
        Ok(both) => both,
        Err(unready) => return Err(unready_failure(Link::First, unready)),
    };
    let interface = found(&read.conf, words.play.interface);
    let next = found(&read.conf, words.next);
    let first = play_of(&words.play, interface, arrivals.file, &arrivals.given);
    let mut firsts = Tables::Firsts(Firsts::new(alloc));
    match play_source(alloc, files, &first, &mut firsts) {
        Ok(_) => {}
        Err(fault) => return Err(play_failure(Link::First, &first, fault)),
    }
    let departures = entry(Part::Departures, words.play.departures, Way::Read);
    let file = match open_next(files, &departures) {
        Ok(file) => file,
        Err(trouble) => return Err(failure_by(Failure::Read(Part::Departures), trouble)),
    };
    let sent = unread(alloc);
    let second = second_of(words, next, file, &sent);
    let mut seconds = Tables::Seconds(Seconds::new(alloc));
    match play_source(alloc, files, &second, &mut seconds) {
        Ok(_) => {}
        Err(fault) => return Err(play_failure(Link::Second, &second, fault)),
    }
    let firsts = firsts.into_firsts(alloc);
    let seconds = seconds.into_seconds(alloc);
    match write_paths(alloc, files, words.path, firsts, seconds) {
        Ok(()) => Ok(Done::Done),
        Err(trouble) => Err(failure_by(Failure::Write(Part::Path), trouble)),
    }
}
