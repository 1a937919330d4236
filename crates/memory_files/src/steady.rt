// Files in memory that never fail.
ghost use Rattle.std.specs.Prelude.{◌≡◌, ◌≢◌, ◌≤◌, ◌<◌, ◌-◌, ◌^◌, ◌⊎◌, ℕ, List, [], min, length, take, IsSome, Some, None, IfOk, OnOk, OnErr, IsErrOf, option_map, unwrap_or};
ghost use Rattle.play_base.specs.View.{Unchanged, SameCounts, Keeps, Everything, IsFresh, Opened, Created, Took, Wrote, Said, WriteFault, IsAtEnd};
ghost use Rattle.memory_files.specs.Memory.{bytes_under};
ghost use Rattle.memory_files.specs.Steady.{HasSameBounds, IsCounted, steady_made, steady_view};
ghost use Rattle.memory_files.specs.declared.planned.Call.{Call};

use crate::Call;
use crate::names::{append_bytes, bytes_of, set_bytes};
use crate::numbered::{add_created, add_file, copy_next, name_of};
use crate::opened::{Chunk, OpenedFile};
use crate::planned::{count_call, count_of};
use play_base::{Files, NoMemory, Trouble};
use std::alloc::Global;
use std::collections::BTreeMap;

/// Files that are held in memory and never fail: a name that isn't there opens as an empty file, so that what they tell
/// has every name, and every count is 0.
#[derive(Drop)]
pub struct SteadyFiles {
    alloc: Global,
    names: BTreeMap<String, Vec<u8>>,
    opened: Vec<OpenedFile>,
    said: Vec<u8>,
    chunk: Chunk,
    short: Chunk,
    calls: [u64; 5],
}

impl SteadyFiles {
    /// No file, nothing said, every name empty, no call made, and no bound on a read or a write. Does not allocate.
    pub fn new(alloc: Global) -> Self
        ensures none { (n : List ℕ) → bytes_under result.names n ≡ None }
        ensures names { (n : List ℕ) → (steady_view result).bytes n ≡ Some [] }
        ensures fresh { IsFresh (steady_view result) }
        ensures made { (call : Call) → steady_made result call ≡ 0 }
        ensures most { result.chunk.most ≡ 2 ^ 32 - 1 }
        ensures short { result.short.most ≡ 2 ^ 32 - 1 }
    {
        SteadyFiles {
            alloc,
            names: BTreeMap::new(alloc),
            opened: Vec::new(alloc),
            said: Vec::new(alloc),
            chunk: Chunk { most: u32::MAX },
            short: Chunk { most: u32::MAX },
            calls: [0; 5],
        }
    }
}

impl SteadyFiles {
    /// Sets the bytes under a name. Files that were opened before keep what they have left. After `NoMemory` nothing has
    /// changed. Takes a copy of the bytes.
    pub fn put(&mut self, name: &str, bytes: &[u8]) -> Result<(), NoMemory>
        ensures set { OnOk result (bytes_under self.new.names name.now ≡ Some bytes.now) }
        ensures others { Keeps (λ n. n ≢ name.now) Everything (steady_view self.old) (steady_view self.new) }
        ensures said { (steady_view self.new).said ≡ (steady_view self.old).said }
        ensures err { OnErr result (Unchanged (steady_view self.old) (steady_view self.new)) }
        ensures made { (call : Call) → steady_made self.new call ≡ steady_made self.old call }
        ensures bounds { HasSameBounds self.old self.new }
    {
        let Ok(bytes) = bytes.to_vec(self.alloc) else {
            return Err(NoMemory);
        };
        match set_bytes(self.alloc, &mut self.names, name, bytes) {
            Ok(()) => Ok(()),
            Err(_) => Err(NoMemory),
        }
    }

    /// The bytes under a name: `None` exactly where it was neither put nor created.
    pub fn get(&self, name: &str) -> Option<&[u8]>
        ensures kept { option_map (λ s. s.now) result ≡ bytes_under self.now.names name.now }
        ensures told { (steady_view self.now).bytes name.now ≡ Some (unwrap_or (option_map (λ s. s.now) result) []) }
    {
        bytes_of(&self.names, name)
    }

    /// The text said so far.
    pub fn said(&self) -> &[u8]
        ensures { result.now ≡ (steady_view self.now).said }
    {
        self.said.as_slice()
    }

    /// Lets one `read` move at most `most` bytes, at least 1.
    pub fn chunk(&mut self, most: u32)
        requires { 1 ≤ most }
        ensures same { Unchanged (steady_view self.old) (steady_view self.new) }
        ensures made { (call : Call) → steady_made self.new call ≡ steady_made self.old call }
        ensures most { self.new.chunk.most ≡ most }
        ensures short { self.new.short.most ≡ self.old.short.most }
    {
        self.chunk = Chunk { most };
    }

    /// Lets one `write` move at most `most` bytes, at least 1. Does not allocate.
    pub fn short_writes(&mut self, most: u32)
        requires { 1 ≤ most }
        ensures same { Unchanged (steady_view self.old) (steady_view self.new) }
        ensures made { (call : Call) → steady_made self.new call ≡ steady_made self.old call }
        ensures most { self.new.chunk.most ≡ self.old.chunk.most }
        ensures short { self.new.short.most ≡ most }
    {
        self.short = Chunk { most };
    }

    /// How many calls of this kind were made since `new`. Does not allocate.
    pub fn calls(&self, call: Call) -> u64
        ensures { result ≡ steady_made self.now call }
    {
        count_of(&self.calls, call)
    }

    /// The count of read faults of a part, a number below 16: always 0.
    pub fn read_faults(&self, part: u8) -> u64
        requires { part < 16 }
        ensures { result ≡ 0 }
    {
        0
    }

    /// The count of write faults of a part, a number below 16: always 0.
    pub fn write_faults(&self, part: u8) -> u64
        requires { part < 16 }
        ensures { result ≡ 0 }
    {
        0
    }
}

impl Files for SteadyFiles {
    ghost use Rattle.memory_files.specs.Telling.{told_at};

    ghost view = { steady_view };

    ghost told = { λ files file part tells there. told_at files.opened.items file part there };

    fn open(&mut self, part: u8, name: &str) -> Result<u32, Trouble>
        requires { part < 16 }
        ensures opened { IfOk result (λ file. Opened (steady_view self.old) (steady_view self.new) part name.now file) }
        ensures counts { OnOk result (SameCounts (steady_view self.old) (steady_view self.new)) }
        ensures files { OnErr result (self.new.opened.items ≡ self.old.opened.items) }
        ensures refused { OnErr result (Unchanged (steady_view self.old) (steady_view self.new)) }
        ensures failed { IsErrOf result Trouble.Failed → ⊥ }
        ensures counted { IsCounted Call.Open self.old self.new }
    {
        let _ = count_call(&mut self.calls, Call::Open);
        let bytes = match self.names.get(name) {
            Some(bytes) => bytes.to_vec(self.alloc),
            None => Ok(Vec::new(self.alloc)),
        };
        match bytes {
            Ok(bytes) => add_file(self.alloc, &mut self.opened, part, name, bytes),
            Err(_) => Err(Trouble::NoMemory),
        }
    }

    fn create(&mut self, part: u8, name: &str) -> Result<u32, Trouble>
        requires { part < 16 }
        ensures created { IfOk result (λ file. Created (steady_view self.old) (steady_view self.new) part name.now file) }
        ensures counts { OnOk result (SameCounts (steady_view self.old) (steady_view self.new)) }
        ensures files { OnErr result (self.new.opened.items ≡ self.old.opened.items) }
        ensures refused { OnErr result (Unchanged (steady_view self.old) (steady_view self.new)) }
        ensures failed { IsErrOf result Trouble.Failed → ⊥ }
        ensures counted { IsCounted Call.Create self.old self.new }
    {
        let _ = count_call(&mut self.calls, Call::Create);
        add_created(self.alloc, &mut self.opened, &mut self.names, part, name)
    }

    fn read(&mut self, file: u32, into: &mut [u8]) -> Result<usize, Trouble>
        requires { IsSome ((steady_view self.old).part file) }
        ensures count { IfOk result (λ n. n ≤ length into.new) }
        ensures took { IfOk result (λ n. Took (steady_view self.old) (steady_view self.new) file (take n into.new)) }
        ensures counts { OnOk result (SameCounts (steady_view self.old) (steady_view self.new)) }
        ensures end { IfOk result (λ n. n ≡ 0 → 0 < length into.new → IsAtEnd (steady_view self.new) file) }
        ensures refused { OnErr result (Unchanged (steady_view self.old) (steady_view self.new)) }
        ensures failed { IsErrOf result Trouble.Failed → ⊥ }
        ensures bounded { IfOk result (λ n. (left : List ℕ) → (steady_view self.old).left file ≡ Some left →
            n ≡ min (min (length left) (length into.old)) self.old.chunk.most) }
        ensures counted { IsCounted Call.Read self.old self.new }
    {
        let _ = count_call(&mut self.calls, Call::Read);
        let from = &mut self.opened[file as usize];
        Ok(copy_next(from, &self.chunk, into))
    }

    fn write(&mut self, file: u32, bytes: &[u8]) -> Result<usize, Trouble>
        requires { IsSome ((steady_view self.old).part file) }
        ensures count { IfOk result (λ n. n ≤ length bytes.now) }
        ensures bounded { IfOk result (λ n. n ≡ min (length bytes.now) self.old.short.most) }
        ensures wrote { IfOk result (λ n. Wrote (steady_view self.old) (steady_view self.new) file (take n bytes.now)) }
        ensures counts { IfOk result (λ n. 0 < n ⊎ (length bytes.now ≡ 0) → SameCounts (steady_view self.old) (steady_view self.new)) }
        ensures none { IfOk result (λ n. n ≡ 0 → 0 < length bytes.now → WriteFault (steady_view self.old) (steady_view self.new) file) }
        ensures refused { OnErr result (Unchanged (steady_view self.old) (steady_view self.new)) }
        ensures failed { IsErrOf result Trouble.Failed → ⊥ }
        ensures counted { IsCounted Call.Write self.old self.new }
    {
        let _ = count_call(&mut self.calls, Call::Write);
        let count = self.short.count(bytes);
        let name = name_of(&self.opened, file);
        match append_bytes(self.alloc, &mut self.names, name, &bytes[..count]) {
            Ok(()) => Ok(count),
            Err(_) => Err(Trouble::NoMemory),
        }
    }

    fn say(&mut self, text: &[u8]) -> Result<(), Trouble>
        ensures said { OnOk result (Said (steady_view self.old) (steady_view self.new) text.now) }
        ensures counts { OnOk result (SameCounts (steady_view self.old) (steady_view self.new)) }
        ensures refused { OnErr result (Unchanged (steady_view self.old) (steady_view self.new)) }
        ensures failed { IsErrOf result Trouble.Failed → ⊥ }
        ensures counted { IsCounted Call.Say self.old self.new }
    {
        let _ = count_call(&mut self.calls, Call::Say);
        match self.said.extend_from_slice(text) {
            Ok(()) => Ok(()),
            Err(_) => Err(Trouble::NoMemory),
        }
    }
}
