// Conditioning a capture.
ghost use Rattle.std.specs.Prelude.{◌≡◌, ◌≤◌, [], Some, if◌then◌else◌, length, true, IfOk, IsTrue};
ghost use Rattle.command_form.specs.Names.{mark_names_read};
ghost use Rattle.conf_laws.specs.Fit.{IsInterface};
ghost use Rattle.interface_marks.specs.Conditioners.{Begins};
ghost use Rattle.marked_files.specs.Standing.{Waits};
ghost use Rattle.condition_command.specs.Conditioning.{ConditionEnds};
ghost use Rattle.condition_command.specs.Starting.{HasInputs};
ghost use Rattle.play_base.specs.View.{SameCounts, View};
ghost use Rattle.play_words.specs.Words.{AreDistinctMarks};
ghost use Rattle.run_inputs.specs.declared.inputs.ReadConf.{ReadConf};

use crate::marking::{unmarked_failure, write_marked};
use arrivals_front::Given;
use command_form::unready_failure;
use conf_laws::configurations_fit;
use conf_tree::Interface;
use file_plans::{Entry, Part, Way, open_next};
use frame_classes::Classifier;
use interface_marks::marker_of;
use marked_files::Marker;
use play_base::{Files, NoMemory, Trouble};
use play_words::ConditionWords;
use run_inputs::{Arrivals, Asking, found, read_inputs};
use run_outcomes::{Done, Failure, Link};
use std::alloc::Global;

// A marker of the conditioners of an interface, for arrivals that begin so.
fn marker_for(
    alloc: Global,
    interface: &Interface,
    given: &Given,
) -> Result<Marker<Classifier>, NoMemory>
    requires fits { IsInterface interface.now }
    requires few { given.now.rest ≡ true → length given.now.front.items ≤ 4 }
    ensures begins { IfOk result (Begins interface.now (if given.now.rest then given.now.front.items else [])) }
    ensures waits { IfOk result Waits }
{
    if given.rest {
        return marker_of(alloc, interface, given.front.as_slice());
    }
    marker_of(alloc, interface, &[])
}

// Creates the marked file, and writes there what the marker makes of arrivals that are had.
#[tactic(auto, using(play_base::proofs::ViewLaws::same_trans, play_base::proofs::ViewLaws::same_refl))]
fn mark_had<F: Files>(
    files: &mut F,
    words: &ConditionWords<'_>,
    arrivals: &Arrivals,
    marker: &mut Marker<Classifier>,
) -> Result<Done, Failure>
    requires distinct { AreDistinctMarks words.now.config.now words.now.arrivals.now words.now.marked.now }
    requires part { (F.view files.old).part arrivals.now.file ≡ Some 2 }
    requires named { IsTrue (F.view files.old).tells → (F.view files.old).name arrivals.now.file ≡ words.now.arrivals.now }
    requires given { length marker.old.held.ready ≡ 0 }
    requires waits { Waits marker.old }
    ensures { (u : View) (r : ReadConf) (h : HasInputs u (F.view files.old) (mark_names_read words.now) r arrivals.now)
        → Begins h.had.configured.found (if arrivals.now.given.rest then arrivals.now.given.front.items else []) marker.old
        → SameCounts u (F.view files.old) → ConditionEnds u (F.view files.new) (mark_names_read words.now) result }
{
    let entry = Entry {
        part: Part::Marked,
        name: words.marked,
        way: Way::Written,
    };
    let marked = match open_next(files, &entry) {
        Ok(file) => file,
        Err(Trouble::Failed) => return Err(Failure::Write(Part::Marked)),
        Err(Trouble::NoMemory) => return Err(Failure::NoMemory),
    };
    match write_marked(files, arrivals.file, marked, &arrivals.given, marker) {
        Ok(()) => Ok(Done::Done),
        Err(why) => Err(unmarked_failure(why)),
    }
}

/// Writes under the name of the marked arrivals what the conditioners of an interface make of the arrivals: each record with the code
/// point that its class's meter gives its frame, and the same bytes where the interface has none. A pcapng file is written as the
/// classic capture of its packets.
///
/// The inputs are read, of a pcapng file all, and then the marked arrivals are created; they are written as the arrivals are read, in
/// pieces of up to 262,160 bytes. It fails where the inputs stop it; as `Capture` at the first fault of the arrivals, or where they are
/// too long; as `Read` of the arrivals where a read of them fails; as `Write` of the marked arrivals where they cannot be created or
/// written; and as `NoMemory`. After `Capture` and a failed read they hold the head and all complete records before that, marked, and
/// nothing behind them. Prints nothing. Takes time in proportion to the arrivals, and memory for one record, a pcapng file and its
/// conversion apart.
#[tactic(auto, using(play_base::proofs::ViewLaws::same_trans, play_base::proofs::ViewLaws::same_refl))]
pub fn condition<F: Files>(
    alloc: Global,
    files: &mut F,
    words: &ConditionWords<'_>,
) -> Result<Done, Failure>
    requires distinct { AreDistinctMarks words.now.config.now words.now.arrivals.now words.now.marked.now }
    ensures { ConditionEnds (F.view files.old) (F.view files.new) (mark_names_read words.now) result }
{
    configurations_fit();
    let asking = Asking {
        config: words.config,
        interface: words.interface,
        next: None,
    };
    let (conf, arrivals) = match read_inputs(alloc, files, &asking, words.arrivals) {
        Ok(had) => had,
        Err(unready) => return Err(unready_failure(Link::Sole, unready)),
    };
    let interface = found(&conf.conf, words.interface);
    let Ok(mut marker) = marker_for(alloc, interface, &arrivals.given) else {
        return Err(Failure::NoMemory);
    };
    mark_had(files, words, &arrivals, &mut marker)
}
