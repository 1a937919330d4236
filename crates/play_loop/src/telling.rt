// What was decided is written, and then told.
ghost use Rattle.std.specs.Prelude.{◌≡◌, ◌≤◌, ◌<◌, ◌*◌, ◌^◌, ◌++◌, ◌∷◌, List, [], length, OnOk, OnErr};
ghost use Rattle.play_loop.specs.declared.kept.KeptFate.{KeptFate};
ghost use Rattle.play_loop.specs.KeptFates.{dropped_fate, dropped_fates, sent_fate};
ghost use Rattle.play_loop.specs.Outputs.{AddsDropped, AddsOnly, AddsSent, CanAdd, StopsDropped, StopsSent};

use crate::PlayFault;
use crate::keeper::Keeper;
use crate::kept::KeptFate;
use crate::outputs::Outputs;
use crate::writing::{write_dropped, write_sent};
use altq_model::Fate;
use discipline::Classify;
use play_base::Files;
use play_core::{Departure, Dropped};
use play_text::Names;

// What is told of a sending.
fn sent_fate(departure: &Departure) -> KeptFate
    ensures { result ≡ sent_fate departure.now }
{
    KeptFate {
        number: departure.packet.number,
        arrival: departure.packet.at,
        fate: Fate::Sent {
            start: departure.start,
            end: departure.end,
            rule: departure.rule,
        },
    }
}

// What is told of a drop.
fn dropped_fate(dropped: &Dropped) -> KeptFate
    ensures { result ≡ dropped_fate dropped.now }
{
    KeptFate {
        number: dropped.number,
        arrival: dropped.at,
        fate: Fate::Dropped(dropped.reason),
    }
}

/// Counts a packet that was sent, adds its texts, and tells of it. After an error each file holds a front of its text.
#[tactic(auto, using(play_base::proofs::ViewLaws::same_trans, play_base::proofs::ViewLaws::same_refl))]
#[inline(always)]
pub fn add_sent<C: Classify, F: Files, K: Keeper>(
    files: &mut F,
    outputs: &mut Outputs,
    keeper: &mut K,
    names: &Names,
    classify: &C,
    departure: Departure,
) -> Result<(), PlayFault>
    requires can { CanAdd names.now (F.view files.old) outputs.old departure.class }
    requires early { departure.end < 2 ^ 32 * 10 ^ 9 }
    requires within { length departure.packet.bytes ≤ departure.packet.len }
    ensures added { OnOk result (AddsSent (C.dressed classify.now) names.now (F.view files.old) (F.view files.new) outputs.old outputs.new departure) }
    ensures stopped { OnErr result (StopsSent (C.dressed classify.now) names.now (F.view files.old) (F.view files.new) outputs.old departure) }
    ensures only { AddsOnly (F.view files.old) (F.view files.new) outputs.old outputs.new result }
    ensures told { OnOk result ((ks : List KeptFate) → K.told keeper.old ks → K.told keeper.new (ks ++ sent_fate departure ∷ [])) }
    ensures fixed { K.fixed keeper.new ≡ K.fixed keeper.old }
{
    let fate = sent_fate(&departure);
    match write_sent(files, outputs, names, classify, departure) {
        Ok(()) => {}
        Err(fault) => return Err(fault),
    }
    match keeper.keep(fate) {
        Ok(()) => Ok(()),
        Err(_) => Err(PlayFault::NoMemory),
    }
}

/// Counts a packet that was offered to a class, adds its row and tells of it, if it was dropped. After an error each file holds a front
/// of its text.
#[tactic(auto, using(play_base::proofs::ViewLaws::same_trans, play_base::proofs::ViewLaws::same_refl))]
#[inline(always)]
pub fn add_dropped<F: Files, K: Keeper>(
    files: &mut F,
    outputs: &mut Outputs,
    keeper: &mut K,
    names: &Names,
    class: u32,
    dropped: Option<Dropped>,
) -> Result<(), PlayFault>
    requires can { CanAdd names.now (F.view files.old) outputs.old class }
    ensures added { OnOk result (AddsDropped names.now (F.view files.old) (F.view files.new) outputs.old outputs.new class dropped) }
    ensures stopped { OnErr result (StopsDropped names.now (F.view files.old) (F.view files.new) outputs.old class dropped) }
    ensures only { AddsOnly (F.view files.old) (F.view files.new) outputs.old outputs.new result }
    ensures told { OnOk result ((ks : List KeptFate) → K.told keeper.old ks → K.told keeper.new (ks ++ dropped_fates dropped)) }
    ensures fixed { K.fixed keeper.new ≡ K.fixed keeper.old }
{
    let Some(lost) = dropped else {
        return Ok(());
    };
    let fate = dropped_fate(&lost);
    match write_dropped(files, outputs, names, class, lost) {
        Ok(()) => {}
        Err(fault) => return Err(fault),
    }
    match keeper.keep(fate) {
        Ok(()) => Ok(()),
        Err(_) => Err(PlayFault::NoMemory),
    }
}
