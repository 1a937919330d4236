// The turns of a play: the sendings that are due before an arrival, and then its offer.
ghost use Rattle.std.specs.Prelude.{◌≡◌, List, IfOk, OnErr};
ghost use Rattle.altq_model.specs.Arrivals.{Captured};
ghost use Rattle.altq_model.specs.History.{DrawnWords, LabelledEvent};
ghost use Rattle.discipline.specs.View.{SameKind};
ghost use Rattle.play_core.specs.Turns.{arrives};
ghost use Rattle.play_loop.specs.Outputs.{AddsOnly};
ghost use Rattle.play_loop.specs.Reading.{ArrivalFits};
ghost use Rattle.play_loop.specs.Setup.{Setup};
ghost use Rattle.play_loop.specs.Underway.{IsNextArrival, IsUnderway, OffersBroken, OffersTo, SendsBroken, SendsTo, classed, classing, moment};

use crate::PlayFault;
use crate::arriving::Arriving;
use crate::ending::Due;
use crate::keeper::Keeper;
use crate::outputs::Outputs;
use crate::telling::{add_dropped, add_sent};
use discipline::{Classify, Discipline};
use leaf_queue::Words;
use play_base::Files;
use play_core::{Progress, Turn};
use play_text::Names;

/// Makes every sending that is due before an arrival, or all where none is to come, adds their texts and tells of each; stops before one that
/// would end too late. After an error each file holds a front of its text.
#[tactic(auto, using(play_base::proofs::ViewLaws::same_trans, play_base::proofs::ViewLaws::same_refl, discipline::proofs::ViewLaws::kind_trans, discipline::proofs::ViewLaws::kind_refl))]
#[inline(always)]
pub fn send_due<D: Discipline, C: Classify, F: Files, K: Keeper>(
    progress: &mut Progress,
    discipline: &mut D,
    classify: &C,
    names: &Names,
    arrival: Option<u64>,
    outputs: &mut Outputs,
    keeper: &mut K,
    files: &mut F,
) -> Result<Due, PlayFault>
    requires under { (x : Setup) × (arrived : List Captured) × (w : DrawnWords) × (g : List LabelledEvent)
        × IsUnderway (classed (classing (C.placed classify.now) (C.dressed classify.now) names.now) x)
        (moment (D.view discipline.old) (F.view files.old) outputs.old (K.told keeper.old) progress.old) arrived w g
        × (arrival ≡ arrives arrived g) }
    ensures due { IfOk result (SendsTo (classing (C.placed classify.now) (C.dressed classify.now) names.now)
        (moment (D.view discipline.old) (F.view files.old) outputs.old (K.told keeper.old) progress.old)
        (moment (D.view discipline.new) (F.view files.new) outputs.new (K.told keeper.new) progress.new) arrival) }
    ensures broken { OnErr result (SendsBroken (classing (C.placed classify.now) (C.dressed classify.now) names.now)
        (moment (D.view discipline.old) (F.view files.old) outputs.old (K.told keeper.old) progress.old)
        (F.view files.new) arrival) }
    ensures only { AddsOnly (F.view files.old) (F.view files.new) outputs.old outputs.new result }
    ensures fixed { K.fixed keeper.new ≡ K.fixed keeper.old }
    ensures kind { SameKind (D.view discipline.old) (D.view discipline.new) }
{
    'turns: loop {
        let departure = match progress.turn(discipline, arrival) {
            Turn::Offer | Turn::End => return Ok(Due::Made),
            Turn::Late => return Ok(Due::Late),
            Turn::Send(departure) => departure,
        };
        match add_sent(files, outputs, keeper, names, classify, departure) {
            Ok(()) => {}
            Err(fault) => return Err(fault),
        }
    }
}

/// Plays a packet that was read: makes every sending that is due before it, and offers it; stops before a sending that would end
/// too late. After an error each file holds a front of its text.
#[tactic(auto, using(play_base::proofs::ViewLaws::same_trans, play_base::proofs::ViewLaws::same_refl, discipline::proofs::ViewLaws::kind_trans, discipline::proofs::ViewLaws::kind_refl))]
pub fn play_packet<D: Discipline, C: Classify, F: Files, K: Keeper>(
    progress: &mut Progress,
    discipline: &mut D,
    classify: &C,
    names: &Names,
    words: &mut Words,
    arriving: &Arriving<'_>,
    outputs: &mut Outputs,
    keeper: &mut K,
    files: &mut F,
) -> Result<Due, PlayFault>
    requires under { (x : Setup) × (arrived : List Captured) × (g : List LabelledEvent)
        × IsUnderway (classed (classing (C.placed classify.now) (C.dressed classify.now) names.now) x)
        (moment (D.view discipline.old) (F.view files.old) outputs.old (K.told keeper.old) progress.old) arrived words.old g
        × IsNextArrival (C.placed classify.now) arrived g arriving.now }
    requires within { ArrivalFits arriving.now }
    ensures due { IfOk result (OffersTo (classing (C.placed classify.now) (C.dressed classify.now) names.now)
        (moment (D.view discipline.old) (F.view files.old) outputs.old (K.told keeper.old) progress.old)
        (moment (D.view discipline.new) (F.view files.new) outputs.new (K.told keeper.new) progress.new) words.old words.new arriving.now) }
    ensures broken { OnErr result (OffersBroken (classing (C.placed classify.now) (C.dressed classify.now) names.now)
        (moment (D.view discipline.old) (F.view files.old) outputs.old (K.told keeper.old) progress.old)
        (F.view files.new) words.old arriving.now) }
    ensures only { AddsOnly (F.view files.old) (F.view files.new) outputs.old outputs.new result }
    ensures fixed { K.fixed keeper.new ≡ K.fixed keeper.old }
    ensures kind { SameKind (D.view discipline.old) (D.view discipline.new) }
{
    let Arriving { packet, placed, .. } = *arriving;
    let at = Some(packet.at);
    match send_due(
        progress, discipline, classify, names, at, outputs, keeper, files,
    ) {
        Ok(Due::Made) => {}
        Ok(Due::Late) => return Ok(Due::Late),
        Err(fault) => return Err(fault),
    }
    let room = outputs.spare.room();
    let dropped = match progress.offer(discipline, words, &packet, placed, room) {
        Ok(dropped) => dropped,
        Err(_) => return Err(PlayFault::NoMemory),
    };
    match add_dropped(files, outputs, keeper, names, placed.class, dropped) {
        Ok(()) => Ok(Due::Made),
        Err(fault) => Err(fault),
    }
}
