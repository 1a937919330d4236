// Bytes that were taken of a file.
ghost use Rattle.std.specs.Prelude.{◌≡◌, ◌≤◌, ◌<◌, ◌+◌, ◌++◌, [], length, drop, take, vec_len, IsErrOf, IsSome, IfOk, OnOk};
ghost use Rattle.pcap_files.specs.Ahead.{TookInto, TookSome};
ghost use Rattle.play_base.specs.View.{IsAtEnd, ReadFault, SameCounts};

use play_base::{Files, NoMemory, Trouble};
use std::alloc::Global;
use std::marker::Model;

// The most bytes that one read takes.
const PIECE: usize = 65_536;

/// Bytes that were taken of a file and not passed yet. Contracts see their list.
#[derive(Drop)]
pub struct Taken {
    bytes: Vec<u8>,
    piece: Vec<u8>,
}

impl Model for Taken {
    ghost use Rattle.std.specs.Prelude.{ℕ, List, ◌≡◌, vec_len};

    ghost Value = { List ℕ };

    ghost view = { λ t. t.bytes.items };

    ghost invariant = { λ t. vec_len t.piece ≡ 65536 };
}

impl Taken {
    /// None. Takes memory for one piece of 65,536 bytes.
    pub fn new(alloc: Global) -> Result<Taken, NoMemory>
        ensures { IfOk result (λ taken. taken ≡ []) }
    {
        Ok(Taken {
            bytes: Vec::new(alloc),
            piece: Vec::from_elem(alloc, 0u8, PIECE)?,
        })
    }

    /// The bytes in order.
    pub fn as_slice(&self) -> &[u8]
        ensures { result.now ≡ self.now }
    {
        self.bytes.as_slice()
    }

    /// How many there are.
    pub fn len(&self) -> usize
        ensures { result ≡ length self.now }
    {
        self.bytes.len()
    }

    /// Leaves out the bytes from a place up to another. Costs a move of those behind them.
    pub fn leave_out(&mut self, from: usize, to: usize)
        requires order { from ≤ to }
        requires inside { to ≤ length self.old }
        ensures { self.new ≡ take from self.old ++ drop to self.old }
    {
        let kept = self.bytes.len() - (to - from);
        self.bytes.copy_within(to.., from);
        self.bytes.truncate(kept);
    }

    /// Takes the next bytes of what an opened file has left, until `most` are there or the file is at its end. No more are taken, in
    /// pieces of at most 65,536. `Failed` comes only where the count of read faults of the file's part rose in this call. Takes time
    /// and memory in proportion to the bytes.
    pub fn fill<F: Files>(&mut self, files: &mut F, file: u32, most: usize) -> Result<(), Trouble>
        requires there { IsSome ((F.view files.old).part file) }
        requires room { length self.old ≤ most }
        ensures taken { OnOk result (TookInto (F.view files.old) (F.view files.new) file self.old self.new) }
        ensures few { OnOk result (length self.new ≤ most) }
        ensures whole { OnOk result (length self.new < most → IsAtEnd (F.view files.new) file) }
        ensures no_fault { OnOk result (SameCounts (F.view files.old) (F.view files.new)) }
        ensures failed { IsErrOf result Trouble.Failed → ReadFault (F.view files.old) (F.view files.new) file }
        ensures some { TookSome (F.view files.old) (F.view files.new) file }
    {
        match take_pieces(files, file, most, &mut self.bytes, &mut self.piece) {
            Ok(()) => Ok(()),
            Err(trouble) => Err(trouble),
        }
    }

    // The bytes alone.
    pub(crate) fn into_bytes(self) -> Vec<u8>
        ensures { result.items ≡ self }
    {
        self.bytes
    }
}

// How many bytes to ask for after `taken` bytes of at most `most`: a piece, or what is wanted still.
fn wanted(taken: usize, most: usize) -> usize
    requires { taken < most }
    ensures some { 1 ≤ result }
    ensures piece { result ≤ 65536 }
    ensures most { taken + result ≤ most }
{
    if most - taken < PIECE {
        most - taken
    } else {
        PIECE
    }
}

// The same through a piece.
#[tactic(auto, using(play_base::proofs::ViewLaws::same_trans, play_base::proofs::ViewLaws::same_refl))]
fn take_pieces<F: Files>(
    files: &mut F,
    file: u32,
    most: usize,
    bytes: &mut Vec<u8>,
    piece: &mut [u8],
) -> Result<(), Trouble>
    requires there { IsSome ((F.view files.old).part file) }
    requires room { length piece.old ≡ 65536 }
    requires fits { vec_len bytes.old ≤ most }
    ensures taken { OnOk result (TookInto (F.view files.old) (F.view files.new) file bytes.old.items bytes.new.items) }
    ensures few { OnOk result (vec_len bytes.new ≤ most) }
    ensures whole { OnOk result (vec_len bytes.new < most → IsAtEnd (F.view files.new) file) }
    ensures no_fault { OnOk result (SameCounts (F.view files.old) (F.view files.new)) }
    ensures failed { IsErrOf result Trouble.Failed → ReadFault (F.view files.old) (F.view files.new) file }
    ensures some { TookSome (F.view files.old) (F.view files.new) file }
    ensures kept { length piece.new ≡ length piece.old }
{
    while bytes.len() < most {
        let wanted = wanted(bytes.len(), most);
        let count = match files.read(file, &mut piece[..wanted]) {
            Ok(count) => count,
            Err(trouble) => return Err(trouble),
        };
        if count == 0 {
            return Ok(());
        }
        if bytes.extend_from_slice(&piece[..count]).is_err() {
            return Err(Trouble::NoMemory);
        }
    }
    Ok(())
}
