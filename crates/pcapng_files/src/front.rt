// Files over borrowed files, of which one has its first bytes in memory.
ghost use Rattle.std.specs.Prelude.{◌≡◌, ◌≤◌, ◌<◌, ◌⊎◌, List, ℕ, length, take, drop, min, IsSome, IfOk, OnOk, OnErr, IsErrOf};
ghost use Rattle.play_base.specs.View.{Rose, SameCounts, Unchanged, Opened, Created, Took, Wrote, Said, ReadFault, WriteFault, IsMissed, IsAtEnd};

use play_base::{Files, Trouble};

/// Bytes that a file has left to read, before its own where `rest` holds, and as all of it where it doesn't.
#[derive(Clone, Copy)]
pub struct Front<'b> {
    pub bytes: &'b [u8],
    pub rest: bool,
}

impl<'b> Front<'b> {
    /// These bytes, before what the file has left where `rest` holds.
    pub fn new(bytes: &'b [u8], rest: bool) -> Front<'b>
        ensures bytes { result.bytes.now ≡ bytes.now }
        ensures rest { result.rest ≡ rest }
    {
        Front { bytes, rest }
    }
}

// Copies the first bytes into `into`, as many as it takes, and gives their count.
fn copy_front(bytes: &[u8], into: &mut [u8]) -> usize
    ensures count { result ≡ min (length bytes.now) (length into.old) }
    ensures length { length into.new ≡ length into.old }
    ensures moved { take result into.new ≡ take result bytes.now }
{
    let count = bytes.len().min(into.len());
    into[..count].copy_from_slice(&bytes[..count]);
    count
}

/// The files behind `files`, of which `file` has other bytes left to read: those of `front` that were not given yet, and then its own
/// where `front` says so. All else is that of `files`, the counts too, and stays so when the loan ends. A read of the front copies at
/// most `into`; no call takes memory beside those of `files`.
#[derive(Drop)]
pub struct FrontFiles<'a, 'b, F: Files> {
    pub files: &'a mut F,
    pub file: u32,
    pub front: Front<'b>,
    ghost there: { IsSome ((F.view files.now).part file) },
}

impl<'a, 'b, F: Files> Files for FrontFiles<'a, 'b, F> {
    ghost use Rattle.pcapng_files.specs.Telling.{front_tells};
    ghost use Rattle.pcapng_files.specs.Fronts.{front_view};

    ghost view = { λ s. front_view (F.view s.files.now) s.files.ghost_name s.file s.front.rest s.front.bytes.now };

    ghost told = { λ s. front_tells (F.view s.files.now) s.files.ghost_name s.file s.front.rest s.front.bytes.now (F.told s.files.now) };

    fn open(&mut self, part: u8, name: &str) -> Result<u32, Trouble> {
        self.files.open(part, name)
    }

    fn create(&mut self, part: u8, name: &str) -> Result<u32, Trouble> {
        self.files.create(part, name)
    }

    fn read(&mut self, file: u32, into: &mut [u8]) -> Result<usize, Trouble> {
        if file != self.file {
            return self.files.read(file, into);
        }
        let front = self.front;
        if front.bytes.is_empty() {
            if front.rest {
                return self.files.read(file, into);
            }
            return Ok(0);
        }
        let count = copy_front(front.bytes, into);
        self.front = Front {
            bytes: &front.bytes[count..],
            rest: front.rest,
        };
        Ok(count)
    }

    fn write(&mut self, file: u32, bytes: &[u8]) -> Result<usize, Trouble> {
        self.files.write(file, bytes)
    }

    fn say(&mut self, text: &[u8]) -> Result<(), Trouble> {
        self.files.say(text)
    }
}
