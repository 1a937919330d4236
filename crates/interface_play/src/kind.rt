// The play of an interface by the discipline of its kind.
ghost use Rattle.std.specs.Prelude.{◌≡◌, ◌≤◌, [], ℕ, List, Some, true, length, IfOk, IsTrue};
ghost use Rattle.discipline.specs.Laws.{HasRate};
ghost use Rattle.file_plans.specs.Plan.{Place, number_of};
ghost use Rattle.interface_play.specs.Ended.{HasEnded, IsBehind, OnlyPlays};
ghost use Rattle.interface_play.specs.Setup.{IsConfigured, Untold, setup_of};
ghost use Rattle.interface_play.specs.Source.{AreSeparate, places_in};
ghost use Rattle.interface_policy.specs.Policy.{policy_of};
ghost use Rattle.play_base.specs.View.{View};
ghost use Rattle.play_loop.specs.Told.{HasDecided};

use crate::laws::laws_hold;
use crate::play::Play;
use crate::playing::play_watched;
use conf_tree::Kind;
use discipline::Discipline;
use interface_policy::{cbq_of, hfsc_of, one_queue_of, sole_class};
use play_base::{Files, NoMemory};
use play_loop::{Keeper, PlayFault, Totals};
use std::alloc::Global;

// Plays by a discipline that was just built; where there was no memory for it, no output is created.
fn play_built<D: Discipline + Drop, K: Keeper, F: Files>(
    alloc: Global,
    files: &mut F,
    play: &Play<'_>,
    built: Result<D, NoMemory>,
    keeper: &mut K,
) -> Result<Totals, PlayFault>
    requires new { IfOk built (λ d. (D.view d).represents []) }
    requires policy { IfOk built (λ d. (D.view d).policy ≡ policy_of play.now.interface.now) }
    requires rate { IfOk built (λ d. HasRate (D.view d).link_rate play.now.interface.now.rate) }
    requires begun { K.told keeper.old [] }
    requires configured { IsConfigured play.now.interface.now }
    requires separate { AreSeparate (places_in play.now) }
    requires there { (F.view files.old).part play.now.file ≡ Some (number_of (places_in play.now).arrivals) }
    requires named { IsTrue (F.view files.old).tells → (F.view files.old).name play.now.file ≡ play.now.arrivals.name.now }
    requires few { play.now.given.now.rest ≡ true → length play.now.given.now.front.items ≤ 4 }
    ensures ended { (before : View) (places : List Place) (opened : List ℕ) → IsBehind before (F.view files.old) places opened play.now
        → HasEnded Untold (K.told keeper.new) before (F.view files.old) (F.view files.new) places opened play.now result }
    ensures only { OnlyPlays (F.view files.old) (F.view files.new) play.now }
    ensures decided { IfOk result (HasDecided (setup_of play.now.interface.now play.now.seed) (K.told keeper.new)) }
    ensures fixed { K.fixed keeper.new ≡ K.fixed keeper.old }
{
    laws_hold();
    match built {
        Ok(mut discipline) => play_watched(alloc, files, play, &mut discipline, keeper),
        Err(NoMemory) => Err(PlayFault::NoMemory),
    }
}

/// Creates the outputs, and plays what stands behind the arrivals by the interface, by HFSC or CBQ as it says; the keeper is told the
/// journal, each decision with its packet's arrival.
///
/// `Capture` and `Limit` come at the first test that the capture fails or the first limit that it reaches, once all complete records before
/// it are played; `Read` and `Write` where a call on that file failed; and `NoMemory`. Costs what `play_told` of play_loop costs, and the
/// memory of the classes and of a marker, where a class has a conditioner.
pub fn play_source<K: Keeper, F: Files>(
    alloc: Global,
    files: &mut F,
    play: &Play<'_>,
    keeper: &mut K,
) -> Result<Totals, PlayFault>
    requires begun { K.told keeper.old [] }
    requires configured { IsConfigured play.now.interface.now }
    requires separate { AreSeparate (places_in play.now) }
    requires there { (F.view files.old).part play.now.file ≡ Some (number_of (places_in play.now).arrivals) }
    requires named { IsTrue (F.view files.old).tells → (F.view files.old).name play.now.file ≡ play.now.arrivals.name.now }
    requires few { play.now.given.now.rest ≡ true → length play.now.given.now.front.items ≤ 4 }
    ensures ended { (before : View) (places : List Place) (opened : List ℕ) → IsBehind before (F.view files.old) places opened play.now
        → HasEnded Untold (K.told keeper.new) before (F.view files.old) (F.view files.new) places opened play.now result }
    ensures only { OnlyPlays (F.view files.old) (F.view files.new) play.now }
    ensures decided { IfOk result (HasDecided (setup_of play.now.interface.now play.now.seed) (K.told keeper.new)) }
    ensures fixed { K.fixed keeper.new ≡ K.fixed keeper.old }
{
    laws_hold();
    let interface = play.interface;
    match interface.kind {
        Kind::Hfsc => match sole_class(interface) {
            Some(class) => {
                let built = one_queue_of(alloc, interface, class);
                play_built(alloc, files, play, built, keeper)
            }
            None => play_built(alloc, files, play, hfsc_of(alloc, interface), keeper),
        },
        Kind::Cbq => play_built(alloc, files, play, cbq_of(alloc, interface), keeper),
    }
}
