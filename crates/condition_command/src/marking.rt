// Writing what a marker makes of a file.
ghost use Rattle.std.specs.Prelude.{◌≡◌, length, true, IsErrOf, OnOk};
ghost use Rattle.arrivals_source.specs.Counted.{IsNoLonger};
ghost use Rattle.condition_command.specs.Marking.{Marks, MarksLeft, Stays, read_trouble, unmarked_failure, way_by, write_trouble};
ghost use Rattle.condition_command.specs.Moving.{AreApart};
ghost use Rattle.marked_files.specs.Standing.{Waits};
ghost use Rattle.play_base.specs.View.{ReadFault, SameCounts, WriteFault};

use arrivals_front::Given;
use arrivals_source::{ArrivalsSource, CountedFiles, Way};
use capture_model::Damage;
use file_plans::Part;
use frame_classes::Classifier;
use marked_files::{Behind, Marker};
use pcapng_files::Front;
use play_base::{Files, Trouble, write_all};
use run_outcomes::{CaptureStop, Failure, Link};

/// Why a capture is not marked to its end.
#[derive(Clone, Copy)]
pub(crate) enum Unmarked {
    /// It fails this test first. What stands before that is marked.
    Damaged(Damage),
    /// It has bytes after 4,000,000 records, or a record that would end past byte 2^30. What stands before is marked.
    Limit,
    /// A read of it failed. What was taken of it is marked.
    Read,
    /// The marked bytes could not be written.
    Write,
    /// No memory was left.
    NoMemory,
}

// What it ends the command as.
pub(crate) fn unmarked_failure(why: Unmarked) -> Failure
    ensures { result ≡ unmarked_failure why }
{
    match why {
        Unmarked::Damaged(damage) => Failure::Capture(Link::Sole, CaptureStop::Damage(damage)),
        Unmarked::Limit => Failure::Capture(Link::Sole, CaptureStop::TooLong),
        Unmarked::Read => Failure::Read(Part::Arrivals),
        Unmarked::Write => Failure::Write(Part::Marked),
        Unmarked::NoMemory => Failure::NoMemory,
    }
}

// What trouble with a read, and with a write, means. No read fails of a capture that is in memory.
fn read_trouble(streamed: bool, trouble: Trouble) -> Unmarked
    ensures { result ≡ read_trouble streamed trouble }
{
    match trouble {
        Trouble::Failed if streamed => Unmarked::Read,
        _ => Unmarked::NoMemory,
    }
}

fn write_trouble(trouble: Trouble) -> Unmarked
    ensures { result ≡ write_trouble trouble }
{
    match trouble {
        Trouble::Failed => Unmarked::Write,
        Trouble::NoMemory => Unmarked::NoMemory,
    }
}

// How arrivals are read that begin so.
fn way_by(rest: bool) -> Way<Classifier>
    ensures { result ≡ way_by rest }
{
    if rest { Way::AsGiven } else { Way::Converted }
}

// Writes what the marker makes of what a file has left, up to its end or to what stops it. Each turn takes at most 65,536 bytes, and
// writes all whole records of what is held.
#[tactic(auto, using(play_base::proofs::ViewLaws::same_trans, play_base::proofs::ViewLaws::same_refl))]
fn mark_file<F: Files>(
    files: &mut F,
    from: u32,
    to: u32,
    streamed: bool,
    marker: &mut Marker<Classifier>,
) -> Result<(), Unmarked>
    requires apart { AreApart (F.view files.old) from to }
    requires given { length marker.old.held.ready ≡ 0 }
    requires waits { Waits marker.old }
    ensures marks { MarksLeft (F.view files.old) (F.view files.new) from to marker.old result }
    ensures stays { Stays (F.view files.old) (F.view files.new) from to }
    ensures read { IsErrOf result Unmarked.Read → (streamed ≡ true) × ReadFault (F.view files.old) (F.view files.new) from }
    ensures write { IsErrOf result Unmarked.Write → WriteFault (F.view files.old) (F.view files.new) to }
    ensures no_fault { OnOk result (SameCounts (F.view files.old) (F.view files.new)) }
{
    'turns: loop {
        let behind = match marker.next_records(files, from) {
            Ok(behind) => behind,
            Err(trouble) => return Err(read_trouble(streamed, trouble)),
        };
        if let Err(trouble) = write_all(files, to, marker.ready()) {
            return Err(write_trouble(trouble));
        }
        match behind {
            Behind::More => marker.give_ready(),
            Behind::End => return Ok(()),
            Behind::Damaged(damage) => return Err(Unmarked::Damaged(damage)),
            Behind::Limit => return Err(Unmarked::Limit),
        }
    }
}

// The same of the arrivals, of which `given` tells how they begin: the marker has taken the front where the file follows it, else nothing.
#[tactic(auto, using(play_base::proofs::ViewLaws::same_trans, play_base::proofs::ViewLaws::same_refl))]
fn mark_given<F: Files>(
    files: &mut F,
    from: u32,
    to: u32,
    given: &Given,
    marker: &mut Marker<Classifier>,
) -> Result<(), Unmarked>
    requires apart { AreApart (F.view files.old) from to }
    requires given { length marker.old.held.ready ≡ 0 }
    requires waits { Waits marker.old }
    ensures marks { Marks (F.view files.old) (F.view files.new) from to given.now.rest given.now.front.items marker.old result }
    ensures stays { Stays (F.view files.old) (F.view files.new) from to }
    ensures read { IsErrOf result Unmarked.Read → (given.now.rest ≡ true) × ReadFault (F.view files.old) (F.view files.new) from }
    ensures write { IsErrOf result Unmarked.Write → WriteFault (F.view files.old) (F.view files.new) to }
    ensures no_fault { OnOk result (SameCounts (F.view files.old) (F.view files.new)) }
{
    let mut way = way_by(given.rest);
    let mut source = ArrivalsSource {
        files,
        file: from,
        front: Front::new(given.front.as_slice(), given.rest),
        way: &mut way,
    };
    mark_file(&mut source, from, to, given.rest, marker)
}

/// Writes what the marker makes of the arrivals, of which `given` tells how they begin: the marker has taken the front where the file
/// follows it, else nothing. What the arrivals have left is no longer than before. Allocates nothing but what the files do.
#[tactic(auto, using(play_base::proofs::ViewLaws::same_trans, play_base::proofs::ViewLaws::same_refl))]
pub(crate) fn write_marked<F: Files>(
    files: &mut F,
    from: u32,
    to: u32,
    given: &Given,
    marker: &mut Marker<Classifier>,
) -> Result<(), Unmarked>
    requires apart { AreApart (F.view files.old) from to }
    requires given { length marker.old.held.ready ≡ 0 }
    requires waits { Waits marker.old }
    ensures marks { Marks (F.view files.old) (F.view files.new) from to given.now.rest given.now.front.items marker.old result }
    ensures stays { Stays (F.view files.old) (F.view files.new) from to }
    ensures shrinks { IsNoLonger (F.view files.old) (F.view files.new) from }
    ensures read { IsErrOf result Unmarked.Read → (given.now.rest ≡ true) × ReadFault (F.view files.old) (F.view files.new) from }
    ensures write { IsErrOf result Unmarked.Write → WriteFault (F.view files.old) (F.view files.new) to }
    ensures no_fault { OnOk result (SameCounts (F.view files.old) (F.view files.new)) }
{
    let outputs = [to];
    let mut counted = CountedFiles {
        files,
        file: from,
        outputs: &outputs,
        taken: 0,
    };
    mark_given(&mut counted, from, to, given, marker)
}
