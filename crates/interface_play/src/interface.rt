// The play of an interface by its discipline, over files that are open.
ghost use Rattle.std.specs.Prelude.{◌≡◌, []};
ghost use Rattle.discipline.specs.Laws.{HasRate};
ghost use Rattle.discipline.specs.View.{SameKind};
ghost use Rattle.interface_play.specs.Setup.{IsConfigured, setup_of};
ghost use Rattle.interface_play.specs.Steps.{CameOf, Stays};
ghost use Rattle.interface_policy.specs.Policy.{policy_of};
ghost use Rattle.play_loop.specs.Played.{AreReady};

use crate::laws::laws_hold;
use conf_tree::Interface;
use discipline::Discipline;
use frame_classes::{Classifier, frames_have_classes};
use interface_policy::names_of;
use leaf_queue::Words;
use play_base::Files;
use play_loop::{Keeper, Opened, PlayFault, Totals, play_told};
use std::alloc::Global;

// Plays an interface by a discipline that keeps its policy, to which nothing was offered yet, and tells a keeper what is decided.
#[tactic(auto, using(play_base::proofs::ViewLaws::same_trans, play_base::proofs::ViewLaws::same_refl, discipline::proofs::ViewLaws::kind_trans, discipline::proofs::ViewLaws::kind_refl))]
pub(crate) fn play_by<D: Discipline, K: Keeper, F: Files>(
    alloc: Global,
    files: &mut F,
    interface: &Interface,
    seed: u64,
    opened: &Opened<'_>,
    discipline: &mut D,
    keeper: &mut K,
) -> Result<Totals, PlayFault>
    requires configured { IsConfigured interface.now }
    requires new { (D.view discipline.old).represents [] }
    requires policy { (D.view discipline.old).policy ≡ policy_of interface.now }
    requires rate { HasRate (D.view discipline.old).link_rate interface.now.rate }
    requires begun { K.told keeper.old [] }
    requires ready { AreReady (F.view files.old) opened.now }
    ensures came { CameOf (setup_of interface.now seed) (D.view discipline.new).represents (K.told keeper.new) opened.now result
        (F.view files.old) (F.view files.new) }
    ensures stays { Stays opened.now result (F.view files.old) (F.view files.new) }
    ensures kind { SameKind (D.view discipline.old) (D.view discipline.new) }
    ensures fixed { K.fixed keeper.new ≡ K.fixed keeper.old }
{
    laws_hold();
    frames_have_classes();
    let Ok(classifier) = Classifier::build(alloc, interface) else {
        return Err(PlayFault::NoMemory);
    };
    let Ok(names) = names_of(alloc, interface) else {
        return Err(PlayFault::NoMemory);
    };
    let mut words = Words::new(seed);
    play_told(
        alloc,
        discipline,
        &classifier,
        &names,
        interface.rate,
        &mut words,
        opened,
        keeper,
        files,
    )
}
