// Playing a capture, and measuring how fairly its link was shared.
ghost use Rattle.std.specs.Prelude.{◌≡◌, [], ℕ, List, IfOk, string_bytes};
ghost use Rattle.altq_model.specs.History.{LabelledEvent, unlabelled};
ghost use Rattle.conf_laws.specs.Fit.{IsInterface};
ghost use Rattle.conf_tree.specs.declared.interface.Kind.TheVariants as kind;
ghost use Rattle.discipline.specs.Laws.{HasRate};
ghost use Rattle.file_plans.specs.Plan.{Place};
ghost use Rattle.interface_play.specs.Ended.{IsBehind, OnlyPlays};
ghost use Rattle.interface_policy.specs.Classes.{hfsc_classes};
ghost use Rattle.interface_policy.specs.Policy.{policy_of};
ghost use Rattle.play_base.specs.View.{View};
ghost use Rattle.share_report.specs.Watched.{classes_in};
ghost use Rattle.shares_command.specs.Measuring.{AreLinesOf, MayPlay, MeasuresTo};

use crate::classes::hfsc_classes;
use crate::lines::gap_lines;
use conf_laws::configurations_fit;
use conf_tree::{Interface, Kind};
use discipline::Discipline;
use hfsc_core::Hfsc;
use interface_play::{Play, play_source, play_watched};
use interface_policy::hfsc_of;
use play_base::{Files, NoMemory};
use play_chain::Tables;
use play_loop::PlayFault;
use rio_precedence::AnyQueue;
use share_report::{Watched, gaps_are_greatest};
use std::alloc::Global;

// The discipline of an interface of HFSC, watched; nothing was offered to it yet.
fn watched_of(alloc: Global, interface: &Interface) -> Result<Watched<Hfsc<AnyQueue>>, NoMemory>
    requires fit { IsInterface interface.now }
    requires kind { interface.now.kind ≡ kind.Hfsc }
    ensures empty { IfOk result (λ d. (⟦<Watched<Hfsc<AnyQueue>> as Discipline>⟧.view d).represents []) }
    ensures policy { IfOk result (λ d. (⟦<Watched<Hfsc<AnyQueue>> as Discipline>⟧.view d).policy ≡ policy_of interface.now) }
    ensures rate { IfOk result (λ d. HasRate (⟦<Watched<Hfsc<AnyQueue>> as Discipline>⟧.view d).link_rate interface.now.rate) }
    ensures classes { IfOk result (λ d. classes_in d ≡ hfsc_classes interface.now.classes) }
{
    let classes = hfsc_classes(alloc, interface.classes.as_slice())?;
    let hfsc = hfsc_of(alloc, interface)?;
    Watched::build(alloc, hfsc, classes.as_slice())
}

// The lines of what was watched.
fn lines_of(
    alloc: Global,
    interface: &Interface,
    watched: &Watched<Hfsc<AnyQueue>>,
) -> Result<String, NoMemory>
    requires fit { IsInterface interface.now }
    requires kind { interface.now.kind ≡ kind.Hfsc }
    requires classes { classes_in watched.now ≡ hfsc_classes interface.now.classes }
    ensures { IfOk result (λ text. (h : List LabelledEvent) → (⟦<Watched<Hfsc<AnyQueue>> as Discipline>⟧.view watched.now).represents h
        → AreLinesOf interface.now (unlabelled h) (string_bytes text)) }
{
    gaps_are_greatest();
    watched.keeps_bounds();
    let gaps = watched.report(alloc)?;
    gap_lines(alloc, interface.classes.as_slice(), gaps.as_slice())
}

// Plays by HFSC, and makes the lines of the play.
fn play_hfsc<F: Files>(alloc: Global, files: &mut F, play: &Play<'_>) -> Result<String, PlayFault>
    requires may { MayPlay (F.view files.old) play.now }
    requires kind { play.now.interface.now.kind ≡ kind.Hfsc }
    ensures ended { (before : View) (places : List Place) (opened : List ℕ) → IsBehind before (F.view files.old) places opened play.now
        → MeasuresTo before (F.view files.old) (F.view files.new) places opened play.now result }
    ensures only { OnlyPlays (F.view files.old) (F.view files.new) play.now }
{
    configurations_fit();
    let mut watched = match watched_of(alloc, play.interface) {
        Ok(watched) => watched,
        Err(NoMemory) => return Err(PlayFault::NoMemory),
    };
    match play_watched(alloc, files, play, &mut watched, &mut Tables::Nothing) {
        Ok(_) => {}
        Err(fault) => return Err(fault),
    }
    match lines_of(alloc, play.interface, &watched) {
        Ok(text) => Ok(text),
        Err(NoMemory) => Err(PlayFault::NoMemory),
    }
}

// Plays by CBQ, which has no pairs.
fn play_cbq<F: Files>(alloc: Global, files: &mut F, play: &Play<'_>) -> Result<String, PlayFault>
    requires may { MayPlay (F.view files.old) play.now }
    requires kind { play.now.interface.now.kind ≡ kind.Cbq }
    ensures ended { (before : View) (places : List Place) (opened : List ℕ) → IsBehind before (F.view files.old) places opened play.now
        → MeasuresTo before (F.view files.old) (F.view files.new) places opened play.now result }
    ensures only { OnlyPlays (F.view files.old) (F.view files.new) play.now }
{
    match play_source(alloc, files, play, &mut Tables::Nothing) {
        Ok(_) => Ok(String::new(alloc)),
        Err(fault) => Err(fault),
    }
}

/// Plays, and makes the lines of the play: of CBQ, which has no pairs, none.
pub fn play_lines<F: Files>(
    alloc: Global,
    files: &mut F,
    play: &Play<'_>,
) -> Result<String, PlayFault>
    requires { MayPlay (F.view files.old) play.now }
    ensures ended { (before : View) (places : List Place) (opened : List ℕ) → IsBehind before (F.view files.old) places opened play.now
        → MeasuresTo before (F.view files.old) (F.view files.new) places opened play.now result }
    ensures only { OnlyPlays (F.view files.old) (F.view files.new) play.now }
{
    match play.interface.kind {
        Kind::Hfsc => play_hfsc(alloc, files, play),
        Kind::Cbq => play_cbq(alloc, files, play),
    }
}
