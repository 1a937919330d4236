// A buffer of one record, of which the first bytes are ready to be given.
ghost use Rattle.std.specs.Prelude.{◌≡◌, ◌≤◌, ◌<◌, ◌+◌, ◌++◌, [], ◌==◌, length, take, drop, min, IsSome, IfOk, OnOk, OnErr, IsErrOf};
ghost use Rattle.pcap_files.specs.Ahead.{TookInto};
ghost use Rattle.play_base.specs.View.{IsAtEnd, ReadFault, SameCounts, Unchanged};
ghost use Rattle.marked_files.specs.Metering.{AreReady, frame_by, meter_of, meters_after};

use crate::metering::mark_by;
use crate::record_head::RECORD_HEAD;
use play_base::{Files, NoMemory, Trouble};
use std::alloc::Global;
use std::marker::Model;
use traffic_meter::Meter;

// Bytes of the longest record with its header.
const MOST: usize = 262_160;

// The most bytes that one read takes.
const PIECE: usize = 65_536;

// The bytes that were taken and not given yet: those up to `middle` are ready. Contracts see both parts.
#[derive(Drop)]
pub struct Window {
    buffer: Vec<u8>,
    from: usize,
    middle: usize,
    to: usize,
}

impl Model for Window {
    ghost use Rattle.std.specs.Prelude.{◌≡◌, ◌≤◌, ◌-◌, take, drop, vec_len};
    ghost use Rattle.marked_files.specs.Held.{PendingBytes};

    ghost Value = { PendingBytes };

    ghost view = { λ w. record {
      ready = take (w.middle - w.from) (drop w.from w.buffer.items);
      pending = take (w.to - w.middle) (drop w.middle w.buffer.items);
    } };

    ghost invariant = { λ w. (w.from ≤ w.middle) × (w.middle ≤ w.to) × (w.to ≤ 262160) × (vec_len w.buffer ≡ 262160) };
}

// Moves a front of the bytes to the front of `into`, and says how many.
fn copy_front(bytes: &[u8], into: &mut [u8]) -> usize
    ensures count { result ≡ min (length bytes.now) (length into.old) }
    ensures length { length into.new ≡ length into.old }
    ensures moved { take result into.new ≡ take result bytes.now }
{
    let count = bytes.len().min(into.len());
    into[..count].copy_from_slice(&bytes[..count]);
    count
}

// Marks the frame of `count` bytes that begins at a place.
fn mark_at(
    bytes: &mut [u8],
    start: usize,
    count: usize,
    meters: &mut Vec<Option<Meter>>,
    class: u32,
    moment: u64,
    len: u32,
)
    requires stands { start + count ≤ length bytes.old }
    requires sound { AreReady moment meters.old.items }
    ensures bytes { bytes.new ≡ take start bytes.old ++ (frame_by (meter_of meters.old.items class)
        (record { moment = moment; len = len }) (take count (drop start bytes.old)) ++ drop (start + count) bytes.old) }
    ensures long { length bytes.new ≡ length bytes.old }
    ensures meters { meters.new.items ≡ meters_after meters.old.items class (record { moment = moment; len = len }) }
    ensures sound { AreReady moment meters.new.items }
{
    mark_by(meters, class, moment, len, &mut bytes[start..start + count]);
}

impl Window {
    // An empty one, which takes all its memory here.
    pub fn new(alloc: Global) -> Result<Window, NoMemory>
        ensures ready { IfOk result (λ w. w.ready ≡ []) }
        ensures pending { IfOk result (λ w. w.pending ≡ []) }
    {
        match Vec::from_elem(alloc, 0u8, MOST) {
            Ok(buffer) => Ok(Window {
                buffer,
                from: 0,
                middle: 0,
                to: 0,
            }),
            Err(_) => Err(NoMemory),
        }
    }

    // Holds these bytes in the place of all that it held. None of them is ready.
    pub fn put(&mut self, bytes: &[u8])
        requires few { length bytes.now ≤ 262160 }
        ensures ready { self.new.ready ≡ [] }
        ensures pending { self.new.pending ≡ bytes.now }
    {
        let count = copy_front(bytes, self.buffer.as_mut_slice());
        self.from = 0;
        self.middle = 0;
        self.to = count;
    }

    // Whether no byte is ready.
    pub fn is_given(&self) -> bool
        ensures { result ≡ (length self.now.ready == 0) }
    {
        self.from == self.middle
    }

    // The bytes that are not ready.
    pub fn pending(&self) -> &[u8]
        ensures { result.now ≡ self.now.pending }
    {
        &self.buffer[self.middle..self.to]
    }

    // The bytes that are ready.
    pub fn ready(&self) -> &[u8]
        ensures { result.now ≡ self.now.ready }
    {
        &self.buffer[self.from..self.middle]
    }

    // Leaves the ready bytes out.
    pub fn give_all(&mut self)
        ensures ready { self.new.ready ≡ [] }
        ensures pending { self.new.pending ≡ self.old.pending }
    {
        self.from = self.middle;
    }

    // Makes the next bytes ready.
    pub fn pass(&mut self, count: usize)
        requires { count ≤ length self.old.pending }
        ensures ready { self.new.ready ≡ self.old.ready ++ take count self.old.pending }
        ensures pending { self.new.pending ≡ drop count self.old.pending }
    {
        self.middle += count;
    }

    // Makes all bytes ready.
    pub fn pass_all(&mut self)
        ensures ready { self.new.ready ≡ self.old.ready ++ self.old.pending }
        ensures pending { self.new.pending ≡ [] }
    {
        self.middle = self.to;
    }

    // Moves the first ready bytes to the front of `into`, and says how many.
    pub fn give(&mut self, into: &mut [u8]) -> usize
        ensures count { result ≡ min (length self.old.ready) (length into.old) }
        ensures length { length into.new ≡ length into.old }
        ensures moved { self.old.ready ≡ take result into.new ++ self.new.ready }
        ensures pending { self.new.pending ≡ self.old.pending }
    {
        let count = copy_front(&self.buffer[self.from..self.middle], into);
        self.from += count;
        count
    }

    // Marks the frame of the record with which the bytes that are not ready begin, and makes the record ready.
    pub fn mark_record(
        &mut self,
        captured: u32,
        meters: &mut Vec<Option<Meter>>,
        class: u32,
        moment: u64,
        len: u32,
    )
        requires stands { 16 + captured ≤ length self.old.pending }
        requires sound { AreReady moment meters.old.items }
        ensures ready { self.new.ready ≡ self.old.ready ++ (take 16 self.old.pending
            ++ frame_by (meter_of meters.old.items class) (record { moment = moment; len = len })
            (take captured (drop 16 self.old.pending))) }
        ensures pending { self.new.pending ≡ drop (16 + captured) self.old.pending }
        ensures meters { meters.new.items ≡ meters_after meters.old.items class (record { moment = moment; len = len }) }
        ensures sound { AreReady moment meters.new.items }
    {
        let start = self.middle + RECORD_HEAD;
        let count = captured as usize;
        mark_at(
            self.buffer.as_mut_slice(),
            start,
            count,
            meters,
            class,
            moment,
            len,
        );
        self.middle = start + count;
    }

    // Takes bytes from the file by one read, to the end of those that are not ready, where all ready ones were given. It says how many.
    pub fn fill<F: Files>(&mut self, files: &mut F, file: u32) -> Result<usize, Trouble>
        requires there { IsSome ((F.view files.old).part file) }
        requires given { length self.old.ready ≡ 0 }
        requires room { length self.old.pending < 262160 }
        ensures took { OnOk result (TookInto (F.view files.old) (F.view files.new) file self.old.pending self.new.pending) }
        ensures count { IfOk result (λ n. length self.new.pending ≡ length self.old.pending + n) }
        ensures room { length self.new.pending ≤ 262160 }
        ensures counts { OnOk result (SameCounts (F.view files.old) (F.view files.new)) }
        ensures end { IfOk result (λ n. n ≡ 0 → IsAtEnd (F.view files.new) file) }
        ensures refused { OnErr result (Unchanged (F.view files.old) (F.view files.new)) }
        ensures stays { OnErr result (self.new.pending ≡ self.old.pending) }
        ensures failed { IsErrOf result Trouble.Failed → ReadFault (F.view files.old) (F.view files.new) file }
        ensures ready { self.new.ready ≡ [] }
    {
        let kept = self.to - self.middle;
        self.buffer.copy_within(self.middle..self.to, 0);
        self.from = 0;
        self.middle = 0;
        self.to = kept;
        let end = MOST.min(kept + PIECE);
        match files.read(file, &mut self.buffer[kept..end]) {
            Ok(count) => {
                self.to = kept + count;
                Ok(count)
            }
            Err(trouble) => Err(trouble),
        }
    }
}
