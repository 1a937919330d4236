// The machine's files, which tell nothing of their content.
ghost use Rattle.std.specs.Prelude.{◌≡◌, ◌≤◌, ◌<◌, ◌++◌, ◌∷◌, ℕ, [], None, Some, false, length, slice_get, slice_index, take, vec_len, IsSome, IfOk, OnErr, OnOk, IsErrOf};
ghost use Rattle.std.specs.Io.{ReadsAtMost, WritesAtMost};
ghost use Rattle.std.specs.Io.KnownBytes.{Appends, ReadConsumes};
ghost use Rattle.real_files.specs.Parts.{AreParts, AddedPart};
ghost use Rattle.play_base.specs.View.{Rose};

use crate::seen::Seen;
use play_base::{Files, Trouble};
use std::alloc::Global;
use std::fs::{Metadata, OpenFile, OpenOptions};
use std::io::{self, ErrorKind, Read, Write};
use std::os::unix::fs::MetadataExt;
use std::{fs, rt};

/// Files of the machine, and its standard output. A file that is open here is not emptied under another name: creating it fails, so
/// that no capture is lost to two names of one file.
#[derive(Drop)]
pub struct RealFiles<'a, R: rt::Files + Print> {
    rt: &'a R,
    parts: Vec<u8>,
    files: Vec<R::File>,
    read_faults: [u64; 16],
    write_faults: [u64; 16],
    seen: Seen,
    ghost paired: { vec_len parts ≡ vec_len files },
    ghost small: { AreParts parts.items },
}

impl<'a, R: rt::Files + Print> RealFiles<'a, R> {
    pub fn new(alloc: Global, rt: &'a R) -> Self {
        RealFiles {
            rt,
            parts: Vec::new(alloc),
            files: Vec::new(alloc),
            read_faults: [0; 16],
            write_faults: [0; 16],
            seen: Seen::new(alloc),
        }
    }

    /// What it kept of the run for a message.
    pub fn seen(&self) -> &Seen {
        &self.seen
    }
}

// Puts a file at the end, if there is a number for it.
fn add_file<T: Drop>(
    parts: &mut Vec<u8>,
    files: &mut Vec<T>,
    part: u8,
    file: T,
) -> Result<u32, Trouble>
    requires small { part < 16 }
    requires parts { AreParts parts.old.items }
    requires paired { vec_len parts.old ≡ vec_len files.old }
    ensures parts { AreParts parts.new.items }
    ensures paired { vec_len parts.new ≡ vec_len files.new }
    ensures added { IfOk result (λ f. AddedPart parts.old.items parts.new.items f part) }
    ensures err { OnErr result (parts.new.items ≡ parts.old.items) }
    ensures memory { IsErrOf result Trouble.Failed → ⊥ }
{
    let Ok(number) = u32::try_from(parts.len()) else {
        return Err(Trouble::NoMemory);
    };
    if parts.push(part).is_err() {
        return Err(Trouble::NoMemory);
    }
    if files.push(file).is_err() {
        let _ = parts.pop();
        return Err(Trouble::NoMemory);
    }
    Ok(number)
}

// One more fault of this part.
fn count_fault(counts: &mut [u64; 16], part: u8)
    requires { part < 16 }
    ensures rose { Rose (slice_index counts.old part) (slice_index counts.new part) }
    ensures later { (p : ℕ) → slice_index counts.old p ≤ slice_index counts.new p }
{
    let count = &mut counts[usize::from(part)];
    *count = count.saturating_add(1);
}

// Whether an open file is this one.
fn is_same<T: OpenFile>(file: &T, other: &Metadata) -> bool {
    match file.metadata() {
        Ok(found) => found.dev() == other.dev() && found.ino() == other.ino(),
        Err(_) => false,
    }
}

// The emptied file under a name, which is made if it is not there. A regular file that is open here is left as it is, and refused.
fn emptied<R: rt::Files>(rt: &R, opened: &[R::File], name: &str) -> io::Result<R::File> {
    let file = OpenOptions::new().write(true).create(true).open(rt, name)?;
    let found = file.metadata()?;
    if found.is_file() {
        if opened.iter().any(|other| is_same(other, &found)) {
            return Err(io::Error::new(
                ErrorKind::AlreadyExists,
                "one file with another of these names: give each its own file",
            ));
        }
        file.set_len(0)?;
    }
    Ok(file)
}

// Moves the next bytes of a reader to the front of `into`, and says how many. A failed read is no end.
fn read_piece<T: Read>(reader: &mut T, into: &mut [u8]) -> io::Result<usize>
    ensures bound { ReadsAtMost result into.new }
    ensures bytes { ReadConsumes (T.remaining reader.old) (T.remaining reader.new) result into.new }
{
    reader.read(into)
}

// Appends a front of the bytes to what a writer holds, and says how long it was, 0 only where there are none. A short write is no
// whole one.
fn write_piece<T: Write>(writer: &mut T, bytes: &[u8]) -> io::Result<usize>
    ensures bound { WritesAtMost result bytes.now }
    ensures bytes { IfOk result (λ n. Appends (T.contents writer.old) (T.contents writer.new) (take n bytes.now)) }
    ensures some { IfOk result (λ n. n ≡ 0 → length bytes.now ≡ 0) }
{
    match writer.write(bytes) {
        Ok(count) if count > 0 || bytes.is_empty() => Ok(count),
        Ok(_) => Err(io::Error::from(ErrorKind::WriteZero)),
        Err(error) => Err(error),
    }
}

// Appends a whole text to what a writer holds, once.
fn say_whole<T: Write>(writer: &mut T, text: &[u8]) -> io::Result<()>
    ensures bytes { OnOk result (Appends (T.contents writer.old) (T.contents writer.new) text.now) }
{
    writer.write_all(text)
}

impl<'a, R: rt::Files + Print> Files for RealFiles<'a, R> {
    ghost use Rattle.std.proofs.lemmas.Bool.{false≢true};

    ghost view = { λ s. record {
      tells = false;
      bytes = λ n. None;
      said = [];
      part = slice_get s.parts.items;
      name = λ f. [];
      left = λ f. None;
      read_faults = slice_index s.read_faults;
      write_faults = slice_index s.write_faults;
      fixed = [];
    } };

    ghost told = { λ files file part tells there. absurd (false≢true tells) };

    fn open(&mut self, part: u8, name: &str) -> Result<u32, Trouble> {
        match fs::open(self.rt, name) {
            Ok(file) => add_file(&mut self.parts, &mut self.files, part, file),
            Err(error) => {
                self.seen.keep_error(error);
                count_fault(&mut self.read_faults, part);
                Err(Trouble::Failed)
            }
        }
    }

    fn create(&mut self, part: u8, name: &str) -> Result<u32, Trouble> {
        match emptied(self.rt, &self.files, name) {
            Ok(file) => add_file(&mut self.parts, &mut self.files, part, file),
            Err(error) => {
                self.seen.keep_error(error);
                count_fault(&mut self.write_faults, part);
                Err(Trouble::Failed)
            }
        }
    }

    fn read(&mut self, file: u32, into: &mut [u8]) -> Result<usize, Trouble> {
        let part = part_of(&self.parts, file);
        match read_piece(&mut self.files[file as usize], into) {
            Ok(count) => {
                self.seen.keep_read(part, &into[..count]);
                Ok(count)
            }
            Err(error) => {
                self.seen.keep_error(error);
                count_fault(&mut self.read_faults, part);
                Err(Trouble::Failed)
            }
        }
    }

    fn write(&mut self, file: u32, bytes: &[u8]) -> Result<usize, Trouble> {
        let part = part_of(&self.parts, file);
        match write_piece(&mut self.files[file as usize], bytes) {
            Ok(count) => {
                self.seen.keep_written(part, &bytes[..count]);
                Ok(count)
            }
            Err(error) => {
                self.seen.keep_error(error);
                count_fault(&mut self.write_faults, part);
                Err(Trouble::Failed)
            }
        }
    }

    fn say(&mut self, text: &[u8]) -> Result<(), Trouble> {
        match say_whole(&mut io::writer(self.rt), text) {
            Ok(()) => Ok(()),
            Err(error) => {
                self.seen.keep_error(error);
                count_fault(&mut self.write_faults, 0);
                Err(Trouble::Failed)
            }
        }
    }
}

// The part of a file.
fn part_of(parts: &[u8], file: u32) -> u8
    requires there { IsSome (slice_get parts.now file) }
    requires parts { AreParts parts.now }
    ensures part { slice_get parts.now file ≡ Some result }
    ensures small { result < 16 }
    ensures within { file < length parts.now }
{
    parts[file as usize]
}
