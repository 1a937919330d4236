// Files over borrowed files, of which one is marked as it is read.
ghost use Rattle.std.specs.Prelude.{◌≡◌, ◌≤◌, ◌<◌, ◌⊎◌, List, ℕ, length, take, min, IsSome, IfOk, OnOk, OnErr, IsErrOf};
ghost use Rattle.play_base.specs.View.{Rose, SameCounts, Unchanged, Opened, Created, Took, Wrote, Said, ReadFault, WriteFault, IsMissed, IsAtEnd};
ghost use Rattle.marked_files.specs.Taking.{holds};

use crate::marker::Marker;
use discipline::Classify;
use play_base::{Files, Trouble};

/// The files behind `files`, of which `file` has other bytes left to read: those that the marker gives of its own. If the marker is
/// new and `file` has its whole capture left when the value is made, these are the marked capture. All else is that of `files`, the
/// counts too, and stays so when the loan ends. A call of `read` on `file` takes at most what the marker has room for, by reads of at
/// most 65,536 bytes, and gives bytes of whole records alone, or what stands behind the last of them. No call takes memory beside
/// those of `files`.
#[derive(Drop)]
pub struct MarkedFiles<'a, 'b, F: Files, C: Classify + Drop> {
    pub files: &'a mut F,
    pub file: u32,
    pub marker: &'b mut Marker<C>,
    ghost there: { IsSome ((F.view files.now).part file) },
    ghost few: { holds marker.now ≤ 262160 },
}

impl<'a, 'b, F: Files, C: Classify + Drop> Files for MarkedFiles<'a, 'b, F, C> {
    ghost use Rattle.marked_files.specs.Markings.{given};
    ghost use Rattle.marked_files.specs.Telling.{marked_tells};
    ghost use Rattle.marked_files.specs.Through.{marked_view};

    ghost view = { λ s. marked_view (F.view s.files.now) s.files.ghost_name s.file s.marker.ghost_name (given C.placed s.marker.now) };

    ghost told = { λ s. marked_tells (F.view s.files.now) s.files.ghost_name s.file s.marker.ghost_name (given C.placed s.marker.now) (F.told s.files.now) };

    fn open(&mut self, part: u8, name: &str) -> Result<u32, Trouble> {
        self.files.open(part, name)
    }

    fn create(&mut self, part: u8, name: &str) -> Result<u32, Trouble> {
        self.files.create(part, name)
    }

    fn read(&mut self, file: u32, into: &mut [u8]) -> Result<usize, Trouble> {
        if file != self.file {
            return self.files.read(file, into);
        }
        self.marker.read(&mut *self.files, file, into)
    }

    fn write(&mut self, file: u32, bytes: &[u8]) -> Result<usize, Trouble> {
        self.files.write(file, bytes)
    }

    fn say(&mut self, text: &[u8]) -> Result<(), Trouble> {
        self.files.say(text)
    }
}
