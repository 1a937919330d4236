// Saying what a configuration means, and whether its curves fit.
ghost use Rattle.std.specs.Prelude.{◌≡◌, IfOk};
ghost use Rattle.check_command.specs.Checking.{CheckEnds, IsCheck, done_by};
ghost use Rattle.conf_laws.specs.Fit.{IsInterface};

use admission::Fit;
use command_form::unready_failure;
use conf_laws::configurations_fit;
use conf_tree::{Conf, Interface};
use link_fit::{configured_curves_can_be_summed, fit_line, fit_of};
use play_base::{Files, NoMemory};
use play_words::CheckWords;
use run_inputs::{Asking, found, read_configuration};
use run_outcomes::{Done, Failure, Link, say_answer};
use std::alloc::Global;

// What is printed of a check, and what it did.
#[derive(Drop)]
struct Answer {
    text: Vec<u8>,
    done: Done,
}

// What a check is done as.
fn done_by(fit: Fit) -> Done
    ensures { result ≡ done_by fit }
{
    match fit {
        Fit::Fits => Done::Done,
        Fit::Exceeds { .. } => Done::Exceeds,
    }
}

// The canonical text of a configuration, and the line that says how the curves of an interface fit.
fn answer_of(alloc: Global, conf: &Conf, interface: &Interface) -> Result<Answer, NoMemory>
    requires { IsInterface interface.now }
    ensures { IfOk result (λ x. IsCheck conf.now interface.now x.done x.text.items) }
{
    configured_curves_can_be_summed();
    let fit = fit_of(alloc, interface)?;
    let line = fit_line(alloc, fit)?;
    let mut text = conf.text(alloc)?;
    text.extend_from_slice(line.as_bytes())?;
    Ok(Answer {
        text,
        done: done_by(fit),
    })
}

/// Prints the canonical text of the configuration (altq.conf(5)), where it has the interface asked for, and in a last line how the
/// real-time curves of that fit its link: it is `Exceeds` where they do not.
///
/// Nothing but the configuration is opened, nothing is created, and at most 2^20 + 1 bytes are read. It fails as the configuration stops
/// it; as `Unsaid` where the answer cannot be printed; and as `NoMemory`.
#[tactic(auto, using(play_base::proofs::ViewLaws::same_trans, play_base::proofs::ViewLaws::same_refl))]
pub fn check<F: Files>(
    alloc: Global,
    files: &mut F,
    words: &CheckWords<'_>,
) -> Result<Done, Failure>
    ensures { CheckEnds (F.view files.old) (F.view files.new) words.now.config.now words.now.interface.now result }
{
    let asking = Asking {
        config: words.config,
        interface: words.interface,
        next: None,
    };
    let read = match read_configuration(alloc, files, &asking) {
        Ok(read) => read,
        Err(unready) => return Err(unready_failure(Link::Sole, unready)),
    };
    configurations_fit();
    let interface = found(&read.conf, words.interface);
    let answer = match answer_of(alloc, &read.conf, interface) {
        Ok(answer) => answer,
        Err(NoMemory) => return Err(Failure::NoMemory),
    };
    match say_answer(files, answer.text.as_slice()) {
        Ok(()) => Ok(answer.done),
        Err(failure) => Err(failure),
    }
}
