// Reading fates in pieces.
ghost use Rattle.std.specs.Prelude.{◌≡◌, ◌≤◌, ◌<◌, ◌^◌, ℕ, List, length, Some, IsErrOf, IsSome, IfOk, OnOk};
ghost use Rattle.given_fates.specs.Fates.{HasFates, IsReadTo};
ghost use Rattle.pcap_files.specs.Ahead.{TookSome};
ghost use Rattle.play_base.specs.View.{ReadFault, SameCounts};
ghost use Rattle.play_text.specs.Names.{AreNames};

use crate::fates::{Fates, FatesFault};
use fate_check::{Row, RowFault, add_rows};
use input_files::Taken;
use play_base::{Files, NoMemory, Trouble};
use play_text::{Names, fates_header};
use std::alloc::Global;

// The most bytes of fates.
const MOST: usize = 1 << 30;

// How many bytes are had at a time, where no row is longer.
const PIECE: usize = 65_536;

// How many bytes to have next, with `left` there: a piece, or twice as many where these have no row, but no more than `most`.
fn next_most(left: usize, most: usize) -> usize
    requires { left < most }
    ensures more { left < result }
    ensures few { result ≤ most }
{
    if left < PIECE / 2 {
        PIECE.min(most)
    } else if left < most / 2 {
        left * 2
    } else {
        most
    }
}

// What the type of names keeps.
fn check_names(names: &Names)
    ensures { AreNames names.now }
{
    names.len();
}

// Where the last line of a text ends.
fn end_of_lines(text: &[u8]) -> usize
    ensures { result ≤ length text.now }
{
    let mut end = text.len();
    while end > 0 && text[end - 1] != b'\n' {
        end -= 1;
    }
    end
}

// Reads the rows that stand whole in what was taken, and passes their text. Where a line is none, nothing is passed: whether it is a
// fault is told at the end of the file.
fn take_rows(names: &Names, taken: &mut Taken, found: &mut Vec<Row>) -> Result<(), NoMemory>
    ensures read { OnOk result ((text : List ℕ) → IsReadTo names.now found.old.items taken.old text → IsReadTo names.now found.new.items taken.new text) }
    ensures fewer { OnOk result (length taken.new ≤ length taken.old) }
{
    let end = end_of_lines(taken.as_slice());
    match add_rows(&taken.as_slice()[..end], names, found) {
        Ok(()) => {
            taken.leave_out(fates_header().len(), end);
            Ok(())
        }
        Err(RowFault::At(_)) => Ok(()),
        Err(RowFault::NoMemory) => Err(NoMemory),
    }
}

// What a text holds of which this is left.
fn last_rows(names: &Names, left: &[u8], found: Vec<Row>) -> Result<Fates, NoMemory>
    ensures { IfOk result (λ fates. (text : List ℕ) → IsReadTo names.now found.items left.now text → HasFates names.now text fates) }
{
    let mut found = found;
    check_names(names);
    match add_rows(left, names, &mut found) {
        Ok(()) => Ok(Fates::Rows(found)),
        Err(RowFault::At(row)) => Ok(Fates::FailsAt(found.len() as u64 + row)),
        Err(RowFault::NoMemory) => Err(NoMemory),
    }
}

/// The fates that an opened file has left, by the names of their classes, if these are at most 2^30 bytes: the rows, or the first row
/// that is none, which is told only once the file was read to its end. No more than 2^30 + 1 bytes are taken, in pieces of at most
/// 65,536. `TooLong` comes exactly where there are more than 2^30, `Read` only where the count of read faults of the file's part rose in
/// this call. Takes time in proportion to the bytes, and in each row a search for the name of its class; memory for the rows and a
/// piece, and for the text from the first fault on.
#[tactic(auto, using(play_base::proofs::ViewLaws::same_trans, play_base::proofs::ViewLaws::same_refl))]
pub fn read_fates<F: Files>(
    alloc: Global,
    files: &mut F,
    file: u32,
    names: &Names,
) -> Result<Fates, FatesFault>
    requires { IsSome ((F.view files.old).part file) }
    ensures whole { IfOk result (λ fates. (text : List ℕ) → (F.view files.old).left file ≡ Some text → HasFates names.now text fates) }
    ensures short { IfOk result (λ fates. (text : List ℕ) → (F.view files.old).left file ≡ Some text → length text ≤ 2 ^ 30) }
    ensures long { IsErrOf result FatesFault.TooLong → (text : List ℕ) → (F.view files.old).left file ≡ Some text → 2 ^ 30 < length text }
    ensures failed { IsErrOf result FatesFault.Read → ReadFault (F.view files.old) (F.view files.new) file }
    ensures no_fault { OnOk result (SameCounts (F.view files.old) (F.view files.new)) }
    ensures some { TookSome (F.view files.old) (F.view files.new) file }
{
    let Ok(mut taken) = Taken::new(alloc) else {
        return Err(FatesFault::NoMemory);
    };
    let mut found = Vec::new(alloc);
    let mut passed = 0;
    let mut most = PIECE;
    loop {
        match taken.fill(files, file, most) {
            Ok(()) => {}
            Err(Trouble::Failed) => return Err(FatesFault::Read),
            Err(Trouble::NoMemory) => return Err(FatesFault::NoMemory),
        }
        let count = taken.len();
        if count > MOST - passed {
            return Err(FatesFault::TooLong);
        }
        if count < most {
            let Ok(fates) = last_rows(names, taken.as_slice(), found) else {
                return Err(FatesFault::NoMemory);
            };
            return Ok(fates);
        }
        let Ok(()) = take_rows(names, &mut taken, &mut found) else {
            return Err(FatesFault::NoMemory);
        };
        passed += count - taken.len();
        most = next_most(taken.len(), MOST + 1 - passed);
    }
}
