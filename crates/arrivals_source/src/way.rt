// In which way a play reads its arrivals.
ghost use Rattle.std.specs.Prelude.{◌≡◌, ◌≤◌, IsSome};
ghost use Rattle.arrivals_source.specs.Through.{ReadSo};
ghost use Rattle.arrivals_source.specs.Ways.{held_by, way_number, way_view};

use crate::reading::{read_both, read_front, read_marked};
use discipline::Classify;
use marked_files::Marker;
use pcapng_files::Front;
use play_base::{Files, Trouble};

/// How the bytes that are played come of the arrivals' file and of a front, which is the classic capture of a pcapng file.
#[derive(Drop)]
pub enum Way<C: Classify + Drop> {
    /// They are the bytes of the file.
    AsGiven,
    /// They are those of the front.
    Converted,
    /// They are what a marker makes of the bytes of the file.
    Marked(Marker<C>),
    /// They are what a marker makes of those of the front.
    MarkedConverted(Marker<C>),
}

impl<C: Classify + Drop> Way<C> {
    // Reads of the file in this way.
    #[tactic(none)]
    pub(crate) fn read<F: Files>(
        &mut self,
        files: &mut F,
        front: &mut Front<'_>,
        file: u32,
        into: &mut [u8],
    ) -> Result<usize, Trouble>
        requires there { IsSome ((F.view files.old).part file) }
        requires few { held_by self.old ≤ 262160 }
        ensures few { held_by self.new ≤ 262160 }
        ensures same { way_number self.new ≡ way_number self.old }
        ensures read { ReadSo (way_view C.placed (F.view files.old) file front.old self.old)
            (way_view C.placed (F.view files.new) file front.new self.new) file into.new result }
    {
        match self {
            Way::AsGiven => files.read(file, into),
            Way::Converted => read_front(files, front, file, into),
            Way::Marked(marker) => read_marked(files, marker, file, into),
            Way::MarkedConverted(marker) => read_both(files, front, marker, file, into),
        }
    }
}
