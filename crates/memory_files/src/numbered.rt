// The list of the files opened so far: a file's number is its place there.
ghost use Rattle.std.specs.Prelude.{◌≡◌, ◌≢◌, ◌≤◌, ◌<◌, ℕ, List, [], min, length, take, drop, IsSome, Some, IfOk, OnOk, OnErr, IsErrOf};
ghost use Rattle.memory_files.specs.Memory.{Added, Advanced, bytes_under, part_at, name_at};

use crate::names::set_bytes;
use crate::opened::{Chunk, OpenedFile};
use play_base::Trouble;
use std::alloc::Global;
use std::collections::BTreeMap;

// Puts a file at the end, if there is a number for it.
#[tactic(auto, using(crate::proofs::OpenedLemmas::added))]
pub fn add_file(
    alloc: Global,
    opened: &mut Vec<OpenedFile>,
    part: u8,
    name: &str,
    bytes: Vec<u8>,
) -> Result<u32, Trouble>
    requires { part < 16 }
    ensures added { IfOk result (λ file. Added opened.old.items opened.new.items file part name.now bytes.items) }
    ensures err { OnErr result (opened.new.items ≡ opened.old.items) }
    ensures memory { IsErrOf result Trouble.Failed → ⊥ }
{
    let Ok(file) = u32::try_from(opened.len()) else {
        return Err(Trouble::NoMemory);
    };
    let Ok(name) = String::from_str(alloc, name) else {
        return Err(Trouble::NoMemory);
    };
    match opened.push(OpenedFile {
        part,
        name,
        bytes,
        place: 0,
    }) {
        Ok(()) => Ok(file),
        Err(_) => Err(Trouble::NoMemory),
    }
}

// Puts a file without bytes at the end, and empties its name.
#[tactic(auto, using(crate::proofs::OpenedLemmas::without_last))]
pub fn add_created(
    alloc: Global,
    opened: &mut Vec<OpenedFile>,
    names: &mut BTreeMap<String, Vec<u8>>,
    part: u8,
    name: &str,
) -> Result<u32, Trouble>
    requires { part < 16 }
    ensures added { IfOk result (λ file. Added opened.old.items opened.new.items file part name.now []) }
    ensures empty { OnOk result (bytes_under names.new name.now ≡ Some []) }
    ensures others { OnOk result ((n : List ℕ) → n ≢ name.now → bytes_under names.new n ≡ bytes_under names.old n) }
    ensures opened { OnErr result (opened.new.items ≡ opened.old.items) }
    ensures names { OnErr result ((n : List ℕ) → bytes_under names.new n ≡ bytes_under names.old n) }
    ensures memory { IsErrOf result Trouble.Failed → ⊥ }
{
    let file = add_file(alloc, opened, part, name, Vec::new(alloc))?;
    match set_bytes(alloc, names, name, Vec::new(alloc)) {
        Ok(()) => Ok(file),
        Err(_) => {
            let _ = opened.pop();
            Err(Trouble::NoMemory)
        }
    }
}

// Copies a front of the bytes, and says how many.
fn copy_front(from: &[u8], chunk: &Chunk, into: &mut [u8]) -> usize
    ensures moved { result ≡ min (min (length from.now) (length into.old)) chunk.now.most }
    ensures count { result ≤ length into.new }
    ensures within { result ≤ length from.now }
    ensures copied { take result into.new ≡ take result from.now }
    ensures none { result ≡ 0 → 0 < length into.new → length from.now ≡ 0 }
{
    let count = from.len().min(into.len()).min(chunk.most as usize);
    into[..count].copy_from_slice(&from[..count]);
    count
}

// Moves the next bytes of a file to the front of `into`, and says how many.
pub fn copy_next(file: &mut OpenedFile, chunk: &Chunk, into: &mut [u8]) -> usize
    ensures moved { result ≡ min (min (length (drop file.old.place file.old.bytes.items)) (length into.old)) chunk.now.most }
    ensures count { result ≤ length into.new }
    ensures advanced { Advanced file.old file.new (take result into.new) }
    ensures end { result ≡ 0 → 0 < length into.new → length (drop file.old.place file.old.bytes.items) ≡ 0 }
{
    let count = copy_front(&file.bytes[file.place..], chunk, into);
    file.place += count;
    count
}

// The name of a file.
#[tactic(auto, using(crate::proofs::OpenedLemmas::name_at_found))]
pub fn name_of(opened: &[OpenedFile], file: u32) -> &str
    requires { IsSome (part_at opened.now file) }
    ensures { result.now ≡ name_at opened.now file }
{
    opened[file as usize].name.as_str()
}

// The part of a file.
#[tactic(auto, using(crate::proofs::OpenedLemmas::part_at_found))]
pub fn part_of(opened: &[OpenedFile], file: u32) -> u8
    requires { IsSome (part_at opened.now file) }
    ensures part { part_at opened.now file ≡ Some result }
    ensures small { result < 16 }
{
    opened[file as usize].part
}
