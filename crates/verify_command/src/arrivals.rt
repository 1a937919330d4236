// Reading the arrivals of given files.
ghost use Rattle.std.specs.Prelude.{◌≡◌, ◌≤◌, List, length, IsSome, IfErr, IfOk, OnOk};
ghost use Rattle.arrivals_source.specs.Ways.{held_by};
ghost use Rattle.conf_laws.specs.Fit.{IsInterface};
ghost use Rattle.input_files.specs.Records.{AreRecords};
ghost use Rattle.interface_marks.specs.Conditioners.{marked_in};
ghost use Rattle.play_base.specs.View.{SameCounts};
ghost use Rattle.verify_command.specs.Reading.{AreNotHad, OfPlayed, ReadOn, ReadSome, Through, capture_failure};

use arrivals_source::{ArrivalsSource, CountedFiles, Way};
use conf_tree::Interface;
use file_plans::Part;
use frame_classes::Classifier;
use input_files::{Records, read_records};
use interface_marks::{is_conditioned, marker_of, nothing_is_marked_without_conditioners};
use pcap_files::CaptureFault;
use pcapng_files::Front;
use play_base::{Files, NoMemory};
use run_inputs::Arrivals;
use run_outcomes::{CaptureStop, Failure, Link};
use std::alloc::Global;

// What a fault of the capture ends the command as.
fn capture_failure(fault: CaptureFault) -> Failure
    ensures { result ≡ capture_failure fault }
{
    match fault {
        CaptureFault::Damage(damage) => Failure::Capture(Link::Sole, CaptureStop::Damage(damage)),
        CaptureFault::Limit => Failure::Capture(Link::Sole, CaptureStop::TooLong),
        CaptureFault::Read => Failure::Read(Part::Arrivals),
        CaptureFault::NoMemory => Failure::NoMemory,
    }
}

// How the bytes in front and those behind them are read whole: marked by the interface's conditioners, if it has one.
fn way_through(alloc: Global, interface: &Interface) -> Result<Way<Classifier>, NoMemory>
    requires fits { IsInterface interface.now }
    ensures shows { IfOk result (Through interface.now) }
    ensures few { IfOk result (λ way. held_by way ≤ 262160) }
{
    nothing_is_marked_without_conditioners();
    if !is_conditioned(interface) {
        return Ok(Way::Converted);
    }
    Ok(Way::MarkedConverted(marker_of(alloc, interface, &[])?))
}

// The records of the arrivals with the marks of an interface's conditioners.
#[tactic(auto, using(play_base::proofs::ViewLaws::same_trans, play_base::proofs::ViewLaws::same_refl))]
fn marked_records<F: Files>(
    alloc: Global,
    files: &mut F,
    interface: &Interface,
    arrivals: &Arrivals,
) -> Result<Records, Failure>
    requires fits { IsInterface interface.now }
    requires there { IsSome ((F.view files.old).part arrivals.now.file) }
    ensures whole { IfOk result (λ answers. OfPlayed (F.view files.old) arrivals.now (λ bytes. AreRecords (marked_in interface.now bytes) answers)) }
    ensures few { IfOk result (λ answers. length answers ≤ 4000000) }
    ensures why { IfErr result (AreNotHad (F.view files.old) (F.view files.new) interface.now arrivals.now) }
    ensures some { ReadSome (F.view files.old) (F.view files.new) arrivals.now.file }
    ensures counts { OnOk result (SameCounts (F.view files.old) (F.view files.new)) }
{
    let Ok(mut way) = way_through(alloc, interface) else {
        return Err(Failure::NoMemory);
    };
    let mut source = ArrivalsSource {
        files,
        file: arrivals.file,
        front: Front::new(arrivals.given.front.as_slice(), arrivals.given.rest),
        way: &mut way,
    };
    match read_records(alloc, &mut source, arrivals.file) {
        Ok(records) => Ok(records),
        Err(fault) => Err(capture_failure(fault)),
    }
}

/// The same, of whichever files; what the arrivals' file has left is no longer afterwards.
pub(crate) fn read_arrivals<F: Files>(
    alloc: Global,
    files: &mut F,
    interface: &Interface,
    arrivals: &Arrivals,
) -> Result<Records, Failure>
    requires fits { IsInterface interface.now }
    requires there { IsSome ((F.view files.old).part arrivals.now.file) }
    ensures whole { IfOk result (λ answers. OfPlayed (F.view files.old) arrivals.now (λ bytes. AreRecords (marked_in interface.now bytes) answers)) }
    ensures few { IfOk result (λ answers. length answers ≤ 4000000) }
    ensures why { IfErr result (AreNotHad (F.view files.old) (F.view files.new) interface.now arrivals.now) }
    ensures on { ReadOn (F.view files.old) (F.view files.new) arrivals.now.file }
    ensures counts { OnOk result (SameCounts (F.view files.old) (F.view files.new)) }
{
    let mut counted = CountedFiles {
        files,
        file: arrivals.file,
        outputs: &[],
        taken: 0,
    };
    marked_records(alloc, &mut counted, interface, arrivals)
}
