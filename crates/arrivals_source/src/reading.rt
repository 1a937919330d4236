// One read of the arrivals, through the wrapper of each way.
ghost use Rattle.std.specs.Prelude.{◌≤◌, IsSome};
ghost use Rattle.marked_files.specs.Taking.{holds};
ghost use Rattle.arrivals_source.specs.Seen.{both_seen, front_seen, marks_seen};
ghost use Rattle.arrivals_source.specs.Through.{ReadSo};

use discipline::Classify;
use marked_files::{MarkedFiles, Marker};
use pcapng_files::{Front, FrontFiles};
use play_base::{Files, Trouble};

// Reads of the bytes in front.
#[tactic(none)]
pub(crate) fn read_front<F: Files>(
    files: &mut F,
    front: &mut Front<'_>,
    file: u32,
    into: &mut [u8],
) -> Result<usize, Trouble>
    requires there { IsSome ((F.view files.old).part file) }
    ensures { ReadSo (front_seen (F.view files.old) file front.old) (front_seen (F.view files.new) file front.new) file into.new result }
{
    let mut fronted = FrontFiles {
        files,
        file,
        front: *front,
    };
    let result = fronted.read(file, into);
    *front = fronted.front;
    result
}

// Reads of what a marker makes of the bytes of the file.
#[tactic(none)]
pub(crate) fn read_marked<F: Files, C: Classify + Drop>(
    files: &mut F,
    marker: &mut Marker<C>,
    file: u32,
    into: &mut [u8],
) -> Result<usize, Trouble>
    requires there { IsSome ((F.view files.old).part file) }
    requires few { holds marker.old ≤ 262160 }
    ensures few { holds marker.new ≤ 262160 }
    ensures read { ReadSo (marks_seen C.placed (F.view files.old) file marker.old) (marks_seen C.placed (F.view files.new) file marker.new)
        file into.new result }
{
    let mut marked = MarkedFiles {
        files,
        file,
        marker,
    };
    marked.read(file, into)
}

// Reads of what a marker makes of the bytes in front.
#[tactic(none)]
pub(crate) fn read_both<F: Files, C: Classify + Drop>(
    files: &mut F,
    front: &mut Front<'_>,
    marker: &mut Marker<C>,
    file: u32,
    into: &mut [u8],
) -> Result<usize, Trouble>
    requires there { IsSome ((F.view files.old).part file) }
    requires few { holds marker.old ≤ 262160 }
    ensures few { holds marker.new ≤ 262160 }
    ensures read { ReadSo (both_seen C.placed (F.view files.old) file front.old marker.old)
        (both_seen C.placed (F.view files.new) file front.new marker.new) file into.new result }
{
    let mut fronted = FrontFiles {
        files,
        file,
        front: *front,
    };
    let result = read_marked(&mut fronted, marker, file, into);
    *front = fronted.front;
    result
}
