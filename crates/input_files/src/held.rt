// The records of a capture, all in one piece of memory.
ghost use Rattle.std.specs.Prelude.{◌≡◌, ◌<◌, ◌≤◌, ◌+◌, ◌++◌, ◌∷◌, [], IfSome, OnOk, drop, length, option_map, slice_get, take};
ghost use Rattle.input_files.specs.Held.{IsHeldRecord, shown_at, shown_in};
ghost use Rattle.input_files.specs.Records.{shown_by};

use pcap_files::Record;
use play_base::NoMemory;
use std::alloc::Global;
use std::marker::Model;

// A record, whose captured bytes stand at a place of all bytes.
#[derive(Clone, Copy)]
struct HeldRecord {
    stamp: u64,
    from: usize,
    len: u32,
    captured: u32,
}

// A part of bytes.
fn part(bytes: &[u8], from: usize, count: usize) -> &[u8]
    requires { from + count ≤ length bytes.now }
    ensures { result.now ≡ take count (drop from bytes.now) }
{
    &bytes[from..from + count]
}

impl HeldRecord {
    // The record, among the bytes of all.
    fn seen(self, bytes: &[u8]) -> Seen<'_>
        requires { IsHeldRecord bytes.now self }
        ensures value { shown_in result ≡ shown_at bytes.now self }
        ensures some { 0 < result.len }
        ensures most { result.len ≤ 262144 }
        ensures short { length result.bytes.now ≤ 262144 }
    {
        Seen {
            stamp: self.stamp,
            len: self.len,
            bytes: part(bytes, self.from, self.captured as usize),
        }
    }
}

/// What is shown of a record: its stamp in nanoseconds, the greater of its original and its captured length in bytes, and the captured
/// bytes.
#[derive(Clone, Copy)]
pub struct Seen<'a> {
    pub stamp: u64,
    pub len: u32,
    pub bytes: &'a [u8],
}

/// The records of a capture in the order of the file, without an allocation for each: 24 bytes for each record, and its captured bytes.
/// Contracts see the list of what is shown of each.
#[derive(Drop)]
pub struct Records {
    bytes: Vec<u8>,
    held: Vec<HeldRecord>,
}

impl Model for Records {
    ghost use Rattle.std.specs.Prelude.{List, map};
    ghost use Rattle.input_files.specs.Records.{Shown};

    ghost Value = { List Shown };

    ghost use Rattle.input_files.specs.Held.{AreHeld, shown_at};

    ghost view = { λ r. map (shown_at r.bytes.items) r.held.items };

    ghost invariant = { λ r. AreHeld r.bytes.items r.held.items };
}

impl Records {
    /// No record. Does not allocate.
    pub fn new(alloc: Global) -> Records
        ensures { result ≡ [] }
    {
        Records {
            bytes: Vec::new(alloc),
            held: Vec::new(alloc),
        }
    }

    /// Puts a record at the end. The only error is lack of memory. Costs the length of its captured bytes, and now and then a move of all.
    pub fn add(&mut self, found: &Record<'_>) -> Result<(), NoMemory>
        ensures { OnOk result (self.new ≡ self.old ++ shown_by found.now ∷ []) }
    {
        let bytes = found.bytes;
        let from = self.bytes.len();
        self.bytes.extend_from_slice(bytes)?;
        self.held.push(HeldRecord {
            stamp: found.stamp,
            from,
            len: found.len,
            captured: bytes.len() as u32,
        })?;
        Ok(())
    }

    /// How many records there are. Does not allocate, in constant time.
    pub fn len(&self) -> usize
        ensures { result ≡ length self.now }
    {
        self.held.len()
    }

    /// The record at a place, from 0; None exactly where there is none. Does not allocate, in constant time.
    pub fn get(&self, place: usize) -> Option<Seen<'_>>
        ensures value { option_map shown_in result ≡ slice_get self.now place }
        ensures some { IfSome result (λ seen. 0 < seen.len) }
        ensures most { IfSome result (λ seen. seen.len ≤ 262144) }
        ensures short { IfSome result (λ seen. length seen.bytes.now ≤ 262144) }
    {
        match self.held.as_slice().get(place) {
            Some(held) => Some(held.seen(self.bytes.as_slice())),
            None => None,
        }
    }
}
