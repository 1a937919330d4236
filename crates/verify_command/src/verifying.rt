// Verifying given files.
ghost use Rattle.std.specs.Prelude.{◌≡◌};
ghost use Rattle.command_form.specs.Names.{given_names_read};
ghost use Rattle.verify_command.specs.Reading.{refutation};
ghost use Rattle.verify_command.specs.Verifying.{VerifyEnds};

use crate::arrivals::read_arrivals;
use crate::files::{read_departures, read_fates};
use crate::lines::verdict_text;
use command_form::unready_failure;
use conf_laws::configurations_fit;
use file_judge::{Unverified, judge};
use play_base::Files;
use play_words::VerifyWords;
use run_inputs::{Asking, found, read_inputs};
use run_outcomes::{Done, Failure, Link, say_answer};
use std::alloc::Global;

// What files that are not verified end the command as.
fn refutation(why: Unverified) -> Failure
    ensures { result ≡ refutation why }
{
    match why {
        Unverified::At { row, test } => Failure::Refuted { row, test },
        Unverified::NoMemory => Failure::NoMemory,
    }
}

/// Holds departures and fates to a configuration and its arrivals, whoever made them, and prints how close each leaf with a real-time
/// curve came to its due moments, and then `verified`. The arrivals are those that the conditioners of the interface have marked.
///
/// Nothing is created. The configuration, the arrivals, classic or pcapng, the departures and the fates are opened and read whole in
/// this order, the last two up to 2^30 bytes each. It fails as `Configuration` at the first fault of its text, or at line 0 where the
/// interface is absent; as `Capture` at the first fault of the arrivals, or where they are too long; as `TooLong` where the
/// configuration, the departures or the fates are; as `Read` where one of them is absent or a read of it fails; as `Refuted` at the
/// first row of the least test that fails; as `Unsaid` where the answer cannot be printed; and as `NoMemory`. Takes time and memory in
/// proportion to the files.
pub fn verify<F: Files>(
    alloc: Global,
    files: &mut F,
    words: &VerifyWords<'_>,
) -> Result<Done, Failure>
    ensures { VerifyEnds (F.view files.old) (F.view files.new) (given_names_read words.now) result }
{
    configurations_fit();
    let asking = Asking {
        config: words.config,
        interface: words.interface,
        next: None,
    };
    let (conf, arrivals) = match read_inputs(alloc, files, &asking, words.arrivals) {
        Ok(inputs) => inputs,
        Err(unready) => return Err(unready_failure(Link::Sole, unready)),
    };
    let interface = found(&conf.conf, words.interface);
    let records = match read_arrivals(alloc, files, interface, &arrivals) {
        Ok(records) => records,
        Err(failure) => return Err(failure),
    };
    let departures = match read_departures(alloc, files, words.departures) {
        Ok(departures) => departures,
        Err(failure) => return Err(failure),
    };
    let fates = match read_fates(alloc, files, interface, words.fates) {
        Ok(fates) => fates,
        Err(failure) => return Err(failure),
    };
    let late = match judge(alloc, interface, &records, &departures, &fates) {
        Ok(late) => late,
        Err(why) => return Err(refutation(why)),
    };
    let Ok(text) = verdict_text(alloc, interface, &late) else {
        return Err(Failure::NoMemory);
    };
    match say_answer(files, text.as_bytes()) {
        Ok(()) => Ok(Done::Done),
        Err(failure) => Err(failure),
    }
}
