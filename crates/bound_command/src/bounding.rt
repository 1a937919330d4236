// Saying how late a packet of each leaf can be sent.
ghost use Rattle.std.specs.Prelude.{◌≡◌, IfOk, string_bytes};
ghost use Rattle.bound_command.specs.Bounding.{BoundEnds};
ghost use Rattle.bound_command.specs.Lines.{IsBoundText, is_fit};
ghost use Rattle.conf_laws.specs.Fit.{IsInterface};

use crate::lines::bound_lines;
use admission::Fit;
use command_form::unready_failure;
use conf_laws::configurations_fit;
use conf_tree::{Interface, Kind};
use link_fit::{configured_curves_can_be_summed, fit_of};
use play_base::{Files, NoMemory};
use play_words::BoundWords;
use run_inputs::{Asking, found, read_configuration};
use run_outcomes::{Done, Failure, Link, say_answer};
use std::alloc::Global;

// Whether the curves fit.
fn is_fit(fit: Fit) -> bool
    ensures { result ≡ is_fit fit }
{
    match fit {
        Fit::Fits => true,
        Fit::Exceeds { .. } => false,
    }
}

// What is printed of the leaves of an interface.
fn answer_of(
    alloc: Global,
    interface: &Interface,
    longest: u32,
    burst: u32,
) -> Result<String, NoMemory>
    requires { IsInterface interface.now }
    ensures { IfOk result (λ text. IsBoundText interface.now (record { longest = longest; burst = burst }) (string_bytes text)) }
{
    configured_curves_can_be_summed();
    let fit = fit_of(alloc, interface)?;
    match interface.kind {
        Kind::Hfsc => bound_lines(alloc, interface, is_fit(fit), longest, burst),
        Kind::Cbq => Ok(String::new(alloc)),
    }
}

/// Prints for each leaf of an interface of HFSC, in the order of the file, `NAME rate R bound N`: where the packets of the leaf keep to R bits
/// per second and bursts of `burst` bytes, and no packet on the link is longer than `longest` bytes, each of them that is sent ends at most N
/// nanoseconds after it arrived. It prints `NAME none` where the leaf has no real-time curve, that has no second slope, or the curves exceed
/// the link; of an interface of CBQ it prints nothing. (Stoica, Zhang and Ng, SIGCOMM 1997; Cruz, IEEE Transactions on Information Theory 1991.)
///
/// Nothing but the configuration is opened, nothing is created, and at most 2^20 + 1 bytes are read. It fails as the configuration stops
/// it; as `Unsaid` where the answer cannot be printed; and as `NoMemory`.
#[tactic(auto, using(play_base::proofs::ViewLaws::same_trans, play_base::proofs::ViewLaws::same_refl))]
pub fn bound<F: Files>(
    alloc: Global,
    files: &mut F,
    words: &BoundWords<'_>,
) -> Result<Done, Failure>
    ensures { BoundEnds (F.view files.old) (F.view files.new) words.now.config.now words.now.interface.now
        (record { longest = words.now.longest; burst = words.now.burst }) result }
{
    let asking = Asking {
        config: words.config,
        interface: words.interface,
        next: None,
    };
    let read = match read_configuration(alloc, files, &asking) {
        Ok(read) => read,
        Err(unready) => return Err(unready_failure(Link::Sole, unready)),
    };
    configurations_fit();
    let interface = found(&read.conf, words.interface);
    let text = match answer_of(alloc, interface, words.longest, words.burst) {
        Ok(text) => text,
        Err(NoMemory) => return Err(Failure::NoMemory),
    };
    match say_answer(files, text.as_bytes()) {
        Ok(()) => Ok(Done::Done),
        Err(failure) => Err(failure),
    }
}
