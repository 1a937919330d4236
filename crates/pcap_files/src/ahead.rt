// Bytes that are taken from a file in pieces, ahead of their use.
ghost use Rattle.std.specs.Prelude.{◌≡◌, ◌≤◌, ◌<◌, ◌+◌, ◌-◌, ◌++◌, ◌⊎◌, ◌^◌, max, length, drop, take, vec_len, IsSome, IfOk, OnOk, OnErr, IsErrOf};
ghost use Rattle.play_base.specs.View.{ReadFault, SameCounts, IsAtEnd, Took, Unchanged};
ghost use Rattle.pcap_files.specs.Ahead.{TookFewer, TookSome, TookInto, last};

use play_base::{Files, NoMemory, Trouble};
use std::alloc::Global;
use std::marker::Model;

// The most bytes that one read takes.
const PIECE: usize = 65_536;

/// The bytes that were taken and not passed yet, and those passed before them that still stand there. Contracts see the two lists.
#[derive(Drop)]
pub struct Ahead {
    // The bytes not passed stand between the two places; what stands behind them is room for the next piece.
    buffer: Vec<u8>,
    from: usize,
    to: usize,
}

impl Model for Ahead {
    ghost use Rattle.std.specs.Prelude.{◌≤◌, drop, take, vec_len};
    ghost use Rattle.pcap_files.specs.Ahead.{HeldBytes};

    ghost Value = { HeldBytes };

    ghost view = { λ a. record { passed = take a.from a.buffer.items; waiting = drop a.from (take a.to a.buffer.items) } };

    ghost invariant = { λ a. (a.from ≤ a.to) × (a.to ≤ vec_len a.buffer) };
}

impl Ahead {
    // These bytes, which were taken before.
    pub fn new(alloc: Global, first: &[u8]) -> Result<Ahead, NoMemory>
        ensures first { IfOk result (λ ahead. ahead.waiting ≡ first.now) }
    {
        let mut buffer = Vec::new(alloc);
        if buffer.extend_from_slice(first).is_err() {
            return Err(NoMemory);
        }
        let to = buffer.len();
        Ok(Ahead {
            buffer,
            from: 0,
            to,
        })
    }

    // The bytes that were not passed, in order.
    pub fn as_slice(&self) -> &[u8]
        ensures { result.now ≡ self.now.waiting }
    {
        &self.buffer[self.from..self.to]
    }

    // The bytes that were passed last.
    #[inline(always)]
    pub fn last(&self, count: usize) -> &[u8]
        requires { count ≤ length self.now.passed }
        ensures { result.now ≡ last count self.now.passed }
    {
        &self.buffer[self.from - count..self.from]
    }

    // Passes the first bytes.
    #[inline(always)]
    pub fn pass(&mut self, count: usize)
        requires { count ≤ length self.old.waiting }
        ensures waiting { self.new.waiting ≡ drop count self.old.waiting }
        ensures passed { self.new.passed ≡ self.old.passed ++ take count self.old.waiting }
    {
        self.from += count;
    }

    // Takes bytes from the file until `need` are there, or the file is at its end; where they are there, it asks the file nothing. Bytes
    // that were passed are dropped before the first read; so the others are moved at most once in a call, and only in one that has to
    // read.
    #[inline]
    pub fn fill<F: Files>(&mut self, files: &mut F, file: u32, need: usize) -> Result<(), Trouble>
        requires there { IsSome ((F.view files.old).part file) }
        requires small { need < 2 ^ 40 }
        ensures took { OnOk result (TookInto (F.view files.old) (F.view files.new) file self.old.waiting self.new.waiting) }
        ensures counts { OnOk result (SameCounts (F.view files.old) (F.view files.new)) }
        ensures enough { OnOk result ((need ≤ length self.new.waiting) ⊎ IsAtEnd (F.view files.new) file) }
        ensures bounded { OnOk result (length self.new.waiting ≤ max (length self.old.waiting) (need + 65535)) }
        ensures some { OnErr result (TookSome (F.view files.old) (F.view files.new) file) }
        ensures failed { IsErrOf result Trouble.Failed → ReadFault (F.view files.old) (F.view files.new) file }
        ensures stopped { IsErrOf result Trouble.Failed → TookFewer need (F.view files.old) (F.view files.new) file self.old.waiting self.new.waiting }
        ensures idle { need ≤ length self.old.waiting → (F.view files.new ≡ F.view files.old) × (self.new ≡ self.old) }
    {
        if self.to - self.from >= need {
            return Ok(());
        }
        self.refill(files, file, need)
    }

    #[inline(never)]
    fn refill<F: Files>(&mut self, files: &mut F, file: u32, need: usize) -> Result<(), Trouble>
        requires there { IsSome ((F.view files.old).part file) }
        requires small { need < 2 ^ 40 }
        ensures took { OnOk result (TookInto (F.view files.old) (F.view files.new) file self.old.waiting self.new.waiting) }
        ensures counts { OnOk result (SameCounts (F.view files.old) (F.view files.new)) }
        ensures enough { OnOk result ((need ≤ length self.new.waiting) ⊎ IsAtEnd (F.view files.new) file) }
        ensures bounded { OnOk result (length self.new.waiting ≤ max (length self.old.waiting) (need + 65535)) }
        ensures some { OnErr result (TookSome (F.view files.old) (F.view files.new) file) }
        ensures failed { IsErrOf result Trouble.Failed → ReadFault (F.view files.old) (F.view files.new) file }
        ensures stopped { IsErrOf result Trouble.Failed → TookFewer need (F.view files.old) (F.view files.new) file self.old.waiting self.new.waiting }
    {
        move_to_front(&mut self.buffer, self.from, self.to);
        self.to -= self.from;
        self.from = 0;
        match take_pieces(files, file, &mut self.buffer, &mut self.to, need) {
            Ok(()) => Ok(()),
            Err(trouble) => Err(trouble),
        }
    }
}

// Moves the bytes between the two places to the front.
fn move_to_front(buffer: &mut Vec<u8>, from: usize, to: usize)
    requires order { from ≤ to }
    requires within { to ≤ vec_len buffer.old }
    ensures moved { take (to - from) buffer.new.items ≡ drop from (take to buffer.old.items) }
    ensures long { vec_len buffer.new ≡ vec_len buffer.old }
{
    buffer.copy_within(from..to, 0);
}

// Reads pieces to the place `to` of the buffer until `need` bytes stand before it, or the file is at its end.
fn take_pieces<F: Files>(
    files: &mut F,
    file: u32,
    buffer: &mut Vec<u8>,
    to: &mut usize,
    need: usize,
) -> Result<(), Trouble>
    requires there { IsSome ((F.view files.old).part file) }
    requires small { need < 2 ^ 40 }
    requires within { to.old ≤ vec_len buffer.old }
    ensures within { to.new ≤ vec_len buffer.new }
    ensures took { OnOk result (TookInto (F.view files.old) (F.view files.new) file (take to.old buffer.old.items) (take to.new buffer.new.items)) }
    ensures counts { OnOk result (SameCounts (F.view files.old) (F.view files.new)) }
    ensures enough { OnOk result ((need ≤ to.new) ⊎ IsAtEnd (F.view files.new) file) }
    ensures bounded { OnOk result (to.new ≤ max to.old (need + 65535)) }
    ensures some { OnErr result (TookSome (F.view files.old) (F.view files.new) file) }
    ensures failed { IsErrOf result Trouble.Failed → ReadFault (F.view files.old) (F.view files.new) file }
    ensures stopped { IsErrOf result Trouble.Failed →
        TookFewer need (F.view files.old) (F.view files.new) file (take to.old buffer.old.items) (take to.new buffer.new.items) }
{
    while *to < need {
        let count = match read_piece(files, file, buffer, *to) {
            Ok(count) => count,
            Err(trouble) => return Err(trouble),
        };
        if count == 0 {
            return Ok(());
        }
        *to += count;
    }
    Ok(())
}

// Reads one piece to the place `to`, and says how many bytes it has. What stands before it stays.
fn read_piece<F: Files>(
    files: &mut F,
    file: u32,
    buffer: &mut Vec<u8>,
    to: usize,
) -> Result<usize, Trouble>
    requires there { IsSome ((F.view files.old).part file) }
    requires small { to < 2 ^ 40 }
    requires within { to ≤ vec_len buffer.old }
    ensures within { to ≤ vec_len buffer.new }
    ensures stays { take to buffer.new.items ≡ take to buffer.old.items }
    ensures count { IfOk result (λ n. (n ≤ 65536) × (to + n ≤ vec_len buffer.new)) }
    ensures took { IfOk result (λ n. Took (F.view files.old) (F.view files.new) file (take n (drop to buffer.new.items))) }
    ensures counts { OnOk result (SameCounts (F.view files.old) (F.view files.new)) }
    ensures end { IfOk result (λ n. n ≡ 0 → IsAtEnd (F.view files.new) file) }
    ensures refused { OnErr result (Unchanged (F.view files.old) (F.view files.new)) }
    ensures failed { IsErrOf result Trouble.Failed → ReadFault (F.view files.old) (F.view files.new) file }
{
    if make_room(buffer, to + PIECE).is_err() {
        return Err(Trouble::NoMemory);
    }
    match files.read(file, &mut buffer[to..to + PIECE]) {
        Ok(count) => Ok(count),
        Err(trouble) => Err(trouble),
    }
}

// Gives the buffer at least `count` bytes. Those that it has stay.
fn make_room(buffer: &mut Vec<u8>, count: usize) -> Result<(), NoMemory>
    requires { count < 2 ^ 41 }
    ensures room { OnOk result (count ≤ vec_len buffer.new) }
    ensures kept { take (vec_len buffer.old) buffer.new.items ≡ buffer.old.items }
    ensures long { vec_len buffer.old ≤ vec_len buffer.new }
{
    if buffer.len() < count && buffer.resize(count, 0).is_err() {
        return Err(NoMemory);
    }
    Ok(())
}
