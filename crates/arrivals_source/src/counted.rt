// Files whose calls leave what one of them has left no longer than it was.
ghost use Rattle.std.specs.Prelude.{◌≡◌, IsSome};
ghost use Rattle.arrivals_source.specs.Counted.{AreApart, is_output};

use play_base::{Files, Trouble};

// Whether the file is one of the outputs.
fn is_output(outputs: &[u32], file: u32) -> bool
    ensures { result ≡ is_output file outputs.now }
{
    outputs.iter().any(|output| *output == file)
}

/// The files behind `files`, of which the bytes are counted that are taken of `file`, and only `outputs` are written, which have other
/// names: `open`, `create`, `say` and a `write` of another file answer `NoMemory`. All else is that of `files`. The count and what `file`
/// has left behind it are the same at the end of the loan as before it, so that what is left grows no longer. `taken` is 0 at first; 2^64
/// bytes are never taken, `NoMemory` comes before.
#[derive(Drop)]
pub struct CountedFiles<'a, 'b, F: Files> {
    pub files: &'a mut F,
    pub file: u32,
    pub outputs: &'b [u32],
    pub taken: u64,
    ghost there: { IsSome ((F.view files.now).part file) },
    ghost apart: { AreApart (F.view files.now) file outputs.now },
}

impl<'a, 'b, F: Files> Files for CountedFiles<'a, 'b, F> {
    ghost use Rattle.arrivals_source.specs.Counted.{counted_view};

    ghost view = { λ s. counted_view (F.view s.files.now) s.files.ghost_name s.file s.taken };

    ghost told = { λ s. F.told s.files.now };

    fn open(&mut self, _part: u8, _name: &str) -> Result<u32, Trouble> {
        Err(Trouble::NoMemory)
    }

    fn create(&mut self, _part: u8, _name: &str) -> Result<u32, Trouble> {
        Err(Trouble::NoMemory)
    }

    fn read(&mut self, file: u32, into: &mut [u8]) -> Result<usize, Trouble> {
        if file != self.file {
            return self.files.read(file, into);
        }
        if self.taken > u64::MAX - into.len() as u64 {
            return Err(Trouble::NoMemory);
        }
        let count = self.files.read(file, into)?;
        self.taken += count as u64;
        Ok(count)
    }

    fn write(&mut self, file: u32, bytes: &[u8]) -> Result<usize, Trouble> {
        if is_output(self.outputs, file) {
            return self.files.write(file, bytes);
        }
        Err(Trouble::NoMemory)
    }

    fn say(&mut self, _text: &[u8]) -> Result<(), Trouble> {
        Err(Trouble::NoMemory)
    }
}
