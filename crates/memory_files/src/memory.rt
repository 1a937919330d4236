// Files in memory, which tell everything.
ghost use Rattle.std.specs.Prelude.{◌≡◌, ◌≢◌, ◌≤◌, ◌<◌, ◌-◌, ◌^◌, ◌⊎◌, ◌++◌, ◌∷◌, [], ℕ, List, min, length, take, IsTrue, IsSome, Some, None, Err, IfOk, OnOk, OnErr, IsErrOf, option_map, slice_index};
ghost use Rattle.play_base.specs.View.{Unchanged, SameCounts, SameButReads, SameButWrites, Keeps, Everything, IsFresh, Rose, Opened, Created, Took, Wrote, Said, ReadFault, WriteFault, IsMissed, IsAtEnd};
ghost use Rattle.memory_files.specs.Memory.{memory_view};
ghost use Rattle.memory_files.specs.Planned.{Counted, IsSamePlan, is_due, made};

use crate::Call;
use crate::names::{append_bytes, bytes_of, set_bytes};
use crate::numbered::{add_created, add_file, copy_next, name_of, part_of};
use crate::opened::{Chunk, OpenedFile};
use crate::planned::{Failing, count_fault, count_of, fails_now};
use play_base::{Files, NoMemory, Trouble};
use std::alloc::Global;
use std::collections::BTreeMap;

/// Files that are held in memory. They tell everything, and fail where `fail_at` planned it and nowhere else.
#[derive(Drop)]
pub struct MemoryFiles {
    alloc: Global,
    names: BTreeMap<String, Vec<u8>>,
    opened: Vec<OpenedFile>,
    said: Vec<u8>,
    read_faults: [u64; 16],
    write_faults: [u64; 16],
    chunk: Chunk,
    short: Chunk,
    failing: Vec<Failing>,
    calls: [u64; 5],
}

impl MemoryFiles {
    /// No name, no file, nothing said, every count 0, and no bound on a read or a write. Does not allocate.
    pub fn new(alloc: Global) -> Self
        ensures names { (n : List ℕ) → (memory_view result).bytes n ≡ None }
        ensures fresh { IsFresh (memory_view result) }
        ensures plan { result.failing.items ≡ [] }
        ensures made { (call : Call) → made result call ≡ 0 }
        ensures most { result.chunk.most ≡ 2 ^ 32 - 1 }
        ensures short { result.short.most ≡ 2 ^ 32 - 1 }
    {
        MemoryFiles {
            alloc,
            names: BTreeMap::new(alloc),
            opened: Vec::new(alloc),
            said: Vec::new(alloc),
            read_faults: [0; 16],
            write_faults: [0; 16],
            chunk: Chunk { most: u32::MAX },
            short: Chunk { most: u32::MAX },
            failing: Vec::new(alloc),
            calls: [0; 5],
        }
    }
}

impl MemoryFiles {
    /// Sets the bytes under a name, which is made if it isn't there. Files that were opened before keep what they have
    /// left. After `NoMemory` nothing has changed. Takes a copy of the bytes.
    pub fn put(&mut self, name: &str, bytes: &[u8]) -> Result<(), NoMemory>
        ensures set { OnOk result ((memory_view self.new).bytes name.now ≡ Some bytes.now) }
        ensures others { Keeps (λ n. n ≢ name.now) Everything (memory_view self.old) (memory_view self.new) }
        ensures said { (memory_view self.new).said ≡ (memory_view self.old).said }
        ensures counts { SameCounts (memory_view self.old) (memory_view self.new) }
        ensures err { OnErr result (Unchanged (memory_view self.old) (memory_view self.new)) }
        ensures plan { IsSamePlan self.old self.new }
        ensures most { self.new.chunk.most ≡ self.old.chunk.most }
        ensures short { self.new.short.most ≡ self.old.short.most }
    {
        let Ok(bytes) = bytes.to_vec(self.alloc) else {
            return Err(NoMemory);
        };
        match set_bytes(self.alloc, &mut self.names, name, bytes) {
            Ok(()) => Ok(()),
            Err(_) => Err(NoMemory),
        }
    }

    /// The bytes under a name: `None` exactly where the name isn't there.
    pub fn get(&self, name: &str) -> Option<&[u8]>
        ensures { option_map (λ s. s.now) result ≡ (memory_view self.now).bytes name.now }
    {
        bytes_of(&self.names, name)
    }

    /// The text said so far.
    pub fn said(&self) -> &[u8]
        ensures { result.now ≡ (memory_view self.now).said }
    {
        self.said.as_slice()
    }

    /// Lets one `read` move at most `most` bytes, at least 1.
    pub fn chunk(&mut self, most: u32)
        requires { 1 ≤ most }
        ensures same { Unchanged (memory_view self.old) (memory_view self.new) }
        ensures counts { SameCounts (memory_view self.old) (memory_view self.new) }
        ensures plan { IsSamePlan self.old self.new }
        ensures most { self.new.chunk.most ≡ most }
        ensures short { self.new.short.most ≡ self.old.short.most }
    {
        self.chunk = Chunk { most };
    }

    /// Lets one `write` move at most `most` bytes, at least 1. Does not allocate.
    pub fn short_writes(&mut self, most: u32)
        requires { 1 ≤ most }
        ensures same { Unchanged (memory_view self.old) (memory_view self.new) }
        ensures counts { SameCounts (memory_view self.old) (memory_view self.new) }
        ensures plan { IsSamePlan self.old self.new }
        ensures most { self.new.chunk.most ≡ self.old.chunk.most }
        ensures short { self.new.short.most ≡ most }
    {
        self.short = Chunk { most };
    }

    /// How many calls of this kind were made since `new`, those that failed too. Does not allocate.
    pub fn calls(&self, call: Call) -> u64
        ensures { result ≡ made self.now call }
    {
        count_of(&self.calls, call)
    }

    /// Lets the nth call of this kind fail, from 0, counting each call of the kind since `new`. A failing call answers
    /// `Failed`, raises its part's count and does nothing else. After `NoMemory` nothing is planned.
    pub fn fail_at(&mut self, call: Call, nth: u64) -> Result<(), NoMemory>
        ensures same { Unchanged (memory_view self.old) (memory_view self.new) }
        ensures counts { SameCounts (memory_view self.old) (memory_view self.new) }
        ensures planned { OnOk result (self.new.failing.items ≡ self.old.failing.items ++ record { call = call; nth = nth } ∷ []) }
        ensures err { OnErr result (self.new.failing.items ≡ self.old.failing.items) }
        ensures made { (c : Call) → made self.new c ≡ made self.old c }
        ensures most { self.new.chunk.most ≡ self.old.chunk.most }
        ensures short { self.new.short.most ≡ self.old.short.most }
    {
        match self.failing.push(Failing { call, nth }) {
            Ok(()) => Ok(()),
            Err(_) => Err(NoMemory),
        }
    }

    /// The count of read faults of a part, a number below 16.
    pub fn read_faults(&self, part: u8) -> u64
        requires { part < 16 }
        ensures { result ≡ (memory_view self.now).read_faults part }
    {
        self.read_faults[usize::from(part)]
    }

    /// The count of write faults of a part, a number below 16.
    pub fn write_faults(&self, part: u8) -> u64
        requires { part < 16 }
        ensures { result ≡ (memory_view self.now).write_faults part }
    {
        self.write_faults[usize::from(part)]
    }
}

impl Files for MemoryFiles {
    ghost use Rattle.memory_files.specs.Telling.{told_at};

    ghost view = { memory_view };

    ghost told = { λ files file part tells there. told_at files.opened.items file part there };

    fn open(&mut self, part: u8, name: &str) -> Result<u32, Trouble>
        requires { part < 16 }
        ensures opened { IfOk result (λ file. Opened (memory_view self.old) (memory_view self.new) part name.now file) }
        ensures counts { OnOk result (SameCounts (memory_view self.old) (memory_view self.new)) }
        ensures files { OnErr result (self.new.opened.items ≡ self.old.opened.items) }
        ensures refused { OnErr result (Unchanged (memory_view self.old) (memory_view self.new)) }
        ensures failed { IsErrOf result Trouble.Failed →
            Rose ((memory_view self.old).read_faults part) ((memory_view self.new).read_faults part)
            ⊎ IsMissed (memory_view self.old) (memory_view self.new) name.now }
        ensures due { IsTrue (is_due self.old Call.Open) → (result ≡ Err Trouble.Failed)
            × Rose ((memory_view self.old).read_faults part) ((memory_view self.new).read_faults part) }
        ensures elsewhere { SameButReads part (memory_view self.old) (memory_view self.new) }
        ensures quiet { (IsTrue (is_due self.old Call.Open) → ⊥) → SameCounts (memory_view self.old) (memory_view self.new) }
        ensures otherwise { IsErrOf result Trouble.Failed → IsTrue (is_due self.old Call.Open) ⊎ ((memory_view self.old).bytes name.now ≡ None) }
        ensures counted { Counted Call.Open self.old self.new }
    {
        if fails_now(&self.failing, &mut self.calls, Call::Open) {
            count_fault(&mut self.read_faults, part);
            return Err(Trouble::Failed);
        }
        let bytes = match self.names.get(name) {
            Some(bytes) => bytes.to_vec(self.alloc),
            None => return Err(Trouble::Failed),
        };
        let Ok(bytes) = bytes else {
            return Err(Trouble::NoMemory);
        };
        add_file(self.alloc, &mut self.opened, part, name, bytes)
    }

    fn create(&mut self, part: u8, name: &str) -> Result<u32, Trouble>
        requires { part < 16 }
        ensures created { IfOk result (λ file. Created (memory_view self.old) (memory_view self.new) part name.now file) }
        ensures counts { OnOk result (SameCounts (memory_view self.old) (memory_view self.new)) }
        ensures files { OnErr result (self.new.opened.items ≡ self.old.opened.items) }
        ensures refused { OnErr result (Unchanged (memory_view self.old) (memory_view self.new)) }
        ensures failed { IsErrOf result Trouble.Failed →
            Rose ((memory_view self.old).write_faults part) ((memory_view self.new).write_faults part) }
        ensures due { IsTrue (is_due self.old Call.Create) → (result ≡ Err Trouble.Failed)
            × Rose ((memory_view self.old).write_faults part) ((memory_view self.new).write_faults part) }
        ensures elsewhere { SameButWrites part (memory_view self.old) (memory_view self.new) }
        ensures quiet { (IsTrue (is_due self.old Call.Create) → ⊥) → SameCounts (memory_view self.old) (memory_view self.new) }
        ensures otherwise { IsErrOf result Trouble.Failed → IsTrue (is_due self.old Call.Create) }
        ensures counted { Counted Call.Create self.old self.new }
    {
        if fails_now(&self.failing, &mut self.calls, Call::Create) {
            count_fault(&mut self.write_faults, part);
            return Err(Trouble::Failed);
        }
        add_created(self.alloc, &mut self.opened, &mut self.names, part, name)
    }

    fn read(&mut self, file: u32, into: &mut [u8]) -> Result<usize, Trouble>
        requires { IsSome ((memory_view self.old).part file) }
        ensures count { IfOk result (λ n. n ≤ length into.new) }
        ensures took { IfOk result (λ n. Took (memory_view self.old) (memory_view self.new) file (take n into.new)) }
        ensures counts { OnOk result (SameCounts (memory_view self.old) (memory_view self.new)) }
        ensures end { IfOk result (λ n. n ≡ 0 → 0 < length into.new → IsAtEnd (memory_view self.new) file) }
        ensures refused { OnErr result (Unchanged (memory_view self.old) (memory_view self.new)) }
        ensures failed { IsErrOf result Trouble.Failed → ReadFault (memory_view self.old) (memory_view self.new) file }
        ensures due { IsTrue (is_due self.old Call.Read) → result ≡ Err Trouble.Failed }
        ensures elsewhere { (p : ℕ) → (memory_view self.old).part file ≡ Some p → SameButReads p (memory_view self.old) (memory_view self.new) }
        ensures quiet { (IsTrue (is_due self.old Call.Read) → ⊥) → SameCounts (memory_view self.old) (memory_view self.new) }
        ensures otherwise { OnErr result (IsTrue (is_due self.old Call.Read)) }
        ensures bounded { IfOk result (λ n. (left : List ℕ) → (memory_view self.old).left file ≡ Some left →
            n ≡ min (min (length left) (length into.old)) self.old.chunk.most) }
        ensures counted { Counted Call.Read self.old self.new }
    {
        if fails_now(&self.failing, &mut self.calls, Call::Read) {
            count_fault(&mut self.read_faults, part_of(&self.opened, file));
            return Err(Trouble::Failed);
        }
        let from = &mut self.opened[file as usize];
        Ok(copy_next(from, &self.chunk, into))
    }

    fn write(&mut self, file: u32, bytes: &[u8]) -> Result<usize, Trouble>
        requires { IsSome ((memory_view self.old).part file) }
        ensures count { IfOk result (λ n. n ≤ length bytes.now) }
        ensures wrote { IfOk result (λ n. Wrote (memory_view self.old) (memory_view self.new) file (take n bytes.now)) }
        ensures counts { IfOk result (λ n. 0 < n ⊎ (length bytes.now ≡ 0) → SameCounts (memory_view self.old) (memory_view self.new)) }
        ensures none { IfOk result (λ n. n ≡ 0 → 0 < length bytes.now → WriteFault (memory_view self.old) (memory_view self.new) file) }
        ensures refused { OnErr result (Unchanged (memory_view self.old) (memory_view self.new)) }
        ensures failed { IsErrOf result Trouble.Failed → WriteFault (memory_view self.old) (memory_view self.new) file }
        ensures due { IsTrue (is_due self.old Call.Write) → result ≡ Err Trouble.Failed }
        ensures elsewhere { (p : ℕ) → (memory_view self.old).part file ≡ Some p → SameButWrites p (memory_view self.old) (memory_view self.new) }
        ensures quiet { (IsTrue (is_due self.old Call.Write) → ⊥) → SameCounts (memory_view self.old) (memory_view self.new) }
        ensures otherwise { IsErrOf result Trouble.Failed → IsTrue (is_due self.old Call.Write) }
        ensures bounded { IfOk result (λ n. n ≡ min (length bytes.now) self.old.short.most) }
        ensures counted { Counted Call.Write self.old self.new }
    {
        if fails_now(&self.failing, &mut self.calls, Call::Write) {
            count_fault(&mut self.write_faults, part_of(&self.opened, file));
            return Err(Trouble::Failed);
        }
        let count = self.short.count(bytes);
        let name = name_of(&self.opened, file);
        match append_bytes(self.alloc, &mut self.names, name, &bytes[..count]) {
            Ok(()) => Ok(count),
            Err(_) => Err(Trouble::NoMemory),
        }
    }

    fn say(&mut self, text: &[u8]) -> Result<(), Trouble>
        ensures said { OnOk result (Said (memory_view self.old) (memory_view self.new) text.now) }
        ensures counts { OnOk result (SameCounts (memory_view self.old) (memory_view self.new)) }
        ensures refused { OnErr result (Unchanged (memory_view self.old) (memory_view self.new)) }
        ensures failed { IsErrOf result Trouble.Failed →
            Rose ((memory_view self.old).write_faults 0) ((memory_view self.new).write_faults 0) }
        ensures due { IsTrue (is_due self.old Call.Say) → (result ≡ Err Trouble.Failed)
            × Rose ((memory_view self.old).write_faults 0) ((memory_view self.new).write_faults 0) }
        ensures elsewhere { SameButWrites 0 (memory_view self.old) (memory_view self.new) }
        ensures quiet { (IsTrue (is_due self.old Call.Say) → ⊥) → SameCounts (memory_view self.old) (memory_view self.new) }
        ensures otherwise { IsErrOf result Trouble.Failed → IsTrue (is_due self.old Call.Say) }
        ensures counted { Counted Call.Say self.old self.new }
    {
        if fails_now(&self.failing, &mut self.calls, Call::Say) {
            count_fault(&mut self.write_faults, 0);
            return Err(Trouble::Failed);
        }
        match self.said.extend_from_slice(text) {
            Ok(()) => Ok(()),
            Err(_) => Err(Trouble::NoMemory),
        }
    }
}
