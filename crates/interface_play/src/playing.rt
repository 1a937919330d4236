// The play of what stands behind the arrivals.
ghost use Rattle.std.specs.Prelude.{◌≡◌, ◌≤◌, [], ℕ, List, Some, true, length, IfOk, IsTrue};
ghost use Rattle.arrivals_source.specs.Chosen.{IsWayOf, first_of};
ghost use Rattle.discipline.specs.Laws.{HasRate};
ghost use Rattle.discipline.specs.View.{SameKind};
ghost use Rattle.file_plans.specs.Plan.{Place, number_of};
ghost use Rattle.interface_play.specs.Ended.{HasEnded, IsBehind, OnlyPlays};
ghost use Rattle.interface_play.specs.Setup.{IsConfigured, setup_of};
ghost use Rattle.interface_play.specs.Source.{AreSeparate, places_in};
ghost use Rattle.interface_play.specs.Steps.{CameThrough, Stays, told_as};
ghost use Rattle.interface_policy.specs.Policy.{policy_of};
ghost use Rattle.play_base.specs.View.{View};
ghost use Rattle.play_loop.specs.Played.{AreReady};
ghost use Rattle.play_loop.specs.Told.{HasDecided};

use crate::creating::create_outputs;
use crate::interface::play_by;
use crate::laws::laws_hold;
use crate::play::Play;
use arrivals_source::{ArrivalsSource, CountedFiles, Way, way_of};
use discipline::Discipline;
use frame_classes::Classifier;
use pcapng_files::Front;
use play_base::Files;
use play_loop::{Keeper, Opened, PlayFault, Totals};
use std::alloc::Global;

// What is told of a play; of a capture in memory no read fails.
fn told_as(rest: bool, played: Result<Totals, PlayFault>) -> Result<Totals, PlayFault>
    ensures { result ≡ told_as rest played }
{
    match played {
        Ok(totals) => Ok(totals),
        Err(PlayFault::Read) if !rest => Err(PlayFault::NoMemory),
        Err(fault) => Err(fault),
    }
}

// Plays what is read of the arrivals in a way.
#[tactic(auto, using(play_base::proofs::ViewLaws::same_trans, play_base::proofs::ViewLaws::same_refl))]
fn play_through<D: Discipline, K: Keeper, F: Files>(
    alloc: Global,
    files: &mut F,
    play: &Play<'_>,
    opened: &Opened<'_>,
    way: Way<Classifier>,
    discipline: &mut D,
    keeper: &mut K,
) -> Result<Totals, PlayFault>
    requires configured { IsConfigured play.now.interface.now }
    requires new { (D.view discipline.old).represents [] }
    requires policy { (D.view discipline.old).policy ≡ policy_of play.now.interface.now }
    requires rate { HasRate (D.view discipline.old).link_rate play.now.interface.now.rate }
    requires begun { K.told keeper.old [] }
    requires ready { AreReady (F.view files.old) opened.now }
    requires is_way { IsWayOf play.now.interface.now play.now.given.now way }
    requires first { opened.now.first.now ≡ first_of way play.now.given.now.front.items }
    ensures came { CameThrough (setup_of play.now.interface.now play.now.seed) (D.view discipline.new).represents (K.told keeper.new)
        play.now opened.now result (F.view files.old) (F.view files.new) }
    ensures stays { Stays opened.now result (F.view files.old) (F.view files.new) }
    ensures kind { SameKind (D.view discipline.old) (D.view discipline.new) }
    ensures fixed { K.fixed keeper.new ≡ K.fixed keeper.old }
{
    let mut way = way;
    let mut source = ArrivalsSource {
        files,
        file: opened.arrivals,
        front: Front::new(play.given.front.as_slice(), play.given.rest),
        way: &mut way,
    };
    play_by(
        alloc,
        &mut source,
        play.interface,
        play.seed,
        opened,
        discipline,
        keeper,
    )
}

/// Creates the outputs, and plays what stands behind the arrivals by a discipline of the interface's policy to which nothing was offered;
/// where the play is done, that represents its history, and the keeper was told its journal, each decision with its packet's arrival.
pub fn play_watched<D: Discipline, K: Keeper, F: Files>(
    alloc: Global,
    files: &mut F,
    play: &Play<'_>,
    discipline: &mut D,
    keeper: &mut K,
) -> Result<Totals, PlayFault>
    requires new { (D.view discipline.old).represents [] }
    requires policy { (D.view discipline.old).policy ≡ policy_of play.now.interface.now }
    requires rate { HasRate (D.view discipline.old).link_rate play.now.interface.now.rate }
    requires begun { K.told keeper.old [] }
    requires configured { IsConfigured play.now.interface.now }
    requires separate { AreSeparate (places_in play.now) }
    requires there { (F.view files.old).part play.now.file ≡ Some (number_of (places_in play.now).arrivals) }
    requires named { IsTrue (F.view files.old).tells → (F.view files.old).name play.now.file ≡ play.now.arrivals.name.now }
    requires few { play.now.given.now.rest ≡ true → length play.now.given.now.front.items ≤ 4 }
    ensures ended { (before : View) (places : List Place) (opened : List ℕ) → IsBehind before (F.view files.old) places opened play.now
        → HasEnded (D.view discipline.new).represents (K.told keeper.new) before (F.view files.old) (F.view files.new) places opened play.now result }
    ensures only { OnlyPlays (F.view files.old) (F.view files.new) play.now }
    ensures kind { SameKind (D.view discipline.old) (D.view discipline.new) }
    ensures decided { IfOk result (HasDecided (setup_of play.now.interface.now play.now.seed) (K.told keeper.new)) }
    ensures fixed { K.fixed keeper.new ≡ K.fixed keeper.old }
{
    laws_hold();
    let outputs = match create_outputs(files, play) {
        Ok(outputs) => outputs,
        Err(fault) => return Err(fault),
    };
    let Ok(way) = way_of(alloc, play.interface, play.given) else {
        return Err(PlayFault::NoMemory);
    };
    let opened = Opened {
        arrivals: play.file,
        first: way.first(play.given.front.as_slice()),
        departures: outputs.departures,
        fates: outputs.fates,
        stats: outputs.stats,
    };
    let numbers = [outputs.departures, outputs.fates, outputs.stats];
    let mut counted = CountedFiles {
        files,
        file: play.file,
        outputs: &numbers,
        taken: 0,
    };
    let played = play_through(alloc, &mut counted, play, &opened, way, discipline, keeper);
    told_as(play.given.rest, played)
}
