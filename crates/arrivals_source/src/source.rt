// Files over borrowed files, of which one is read in a way that is chosen once.
ghost use Rattle.std.specs.Prelude.{◌≡◌, ◌≤◌, IsSome};
ghost use Rattle.arrivals_source.specs.Ways.{held_by};

use crate::way::Way;
use discipline::Classify;
use pcapng_files::Front;
use play_base::{Files, Trouble};

/// The files behind `files`, of which `file`, the arrivals, has other bytes left to read: those that come of its own in a way. All else
/// is that of `files`, the counts too, and stays so when the loan ends. The way is asked at each `read` of `file` alone.
#[derive(Drop)]
pub struct ArrivalsSource<'a, 'b, 'c, F: Files, C: Classify + Drop> {
    pub files: &'a mut F,
    pub file: u32,
    pub front: Front<'c>,
    pub way: &'b mut Way<C>,
    ghost there: { IsSome ((F.view files.now).part file) },
    ghost few: { held_by way.now ≤ 262160 },
}

impl<'a, 'b, 'c, F: Files, C: Classify + Drop> Files for ArrivalsSource<'a, 'b, 'c, F, C> {
    ghost use Rattle.arrivals_source.specs.Telling.{source_tells};
    ghost use Rattle.arrivals_source.specs.Ways.{source_view};

    ghost view = { λ s. source_view C.placed (F.view s.files.now) s.files.ghost_name s.file s.front s.way.now };

    ghost told = { λ s. source_tells C.placed (F.view s.files.now) s.files.ghost_name s.file s.front s.way.now (F.told s.files.now) };

    fn open(&mut self, part: u8, name: &str) -> Result<u32, Trouble> {
        self.files.open(part, name)
    }

    fn create(&mut self, part: u8, name: &str) -> Result<u32, Trouble> {
        self.files.create(part, name)
    }

    #[tactic(none)]
    fn read(&mut self, file: u32, into: &mut [u8]) -> Result<usize, Trouble> {
        if file != self.file {
            return self.files.read(file, into);
        }
        self.way.read(&mut *self.files, &mut self.front, file, into)
    }

    fn write(&mut self, file: u32, bytes: &[u8]) -> Result<usize, Trouble> {
        self.files.write(file, bytes)
    }

    fn say(&mut self, text: &[u8]) -> Result<(), Trouble> {
        self.files.say(text)
    }
}
