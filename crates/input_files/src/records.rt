// The records of a capture.
ghost use Rattle.std.specs.Prelude.{◌≡◌, ◌≤◌, ℕ, List, length, Some, IfErr, IfOk, IsErrOf, IsSome, OnOk};
ghost use Rattle.input_files.specs.Records.{AreRecords, HasFault, IsReadOut, IsToldLast, StaysOrFails};
ghost use Rattle.pcap_files.specs.Ahead.{TookSome};
ghost use Rattle.play_base.specs.View.{ReadFault, SameCounts};

use crate::held::Records;
use pcap_files::{CaptureFault, Reader};
use play_base::{Files, Trouble};
use std::alloc::Global;

// The records, up to the first fault.
#[tactic(auto, using(play_base::proofs::ViewLaws::same_trans, play_base::proofs::ViewLaws::same_refl))]
fn records_of<F: Files>(alloc: Global, files: &mut F, file: u32) -> Result<Records, CaptureFault>
    requires { IsSome ((F.view files.old).part file) }
    ensures whole { IfOk result (λ answers. (bytes : List ℕ) → (F.view files.old).left file ≡ Some bytes → AreRecords bytes answers) }
    ensures few { IfOk result (λ answers. length answers ≤ 4000000) }
    ensures fault { IfErr result (λ fault. (bytes : List ℕ) → (F.view files.old).left file ≡ Some bytes → HasFault bytes fault) }
    ensures read { IsErrOf result CaptureFault.Read → ReadFault (F.view files.old) (F.view files.new) file }
    ensures no_fault { OnOk result (SameCounts (F.view files.old) (F.view files.new)) }
    ensures some { TookSome (F.view files.old) (F.view files.new) file }
{
    let mut records = Records::new(alloc);
    let mut reader = match Reader::start(alloc, files, file, &[]) {
        Ok(reader) => reader,
        Err(fault) => return Err(fault),
    };
    'records: loop {
        let answer = match reader.next(files) {
            Ok(answer) => answer,
            Err(fault) => return Err(fault),
        };
        let Some(found) = answer else {
            return Ok(records);
        };
        if records.add(&reader.lend(found)).is_err() {
            return Err(CaptureFault::NoMemory);
        }
    }
}

// No capture has more bytes.
const MOST_BYTES: u64 = 1 << 30;

// Takes what a file has left in pieces, or more bytes of it than a capture may have.
fn take_rest<F: Files>(files: &mut F, file: u32, piece: &mut [u8]) -> Result<(), Trouble>
    requires there { IsSome ((F.view files.old).part file) }
    requires room { length piece.old ≡ 65536 }
    ensures out { OnOk result (IsReadOut (F.view files.old) (F.view files.new) file) }
    ensures failed { IsErrOf result Trouble.Failed → ReadFault (F.view files.old) (F.view files.new) file }
    ensures some { TookSome (F.view files.old) (F.view files.new) file }
{
    let mut taken = 0u64;
    while taken <= MOST_BYTES {
        let count = match files.read(file, piece) {
            Ok(count) => count,
            Err(trouble) => return Err(trouble),
        };
        if count == 0 {
            return Ok(());
        }
        taken += count as u64;
    }
    Ok(())
}

// What is told of a capture with a fault in its bytes, once all of it is read.
fn told_after<F: Files>(
    alloc: Global,
    files: &mut F,
    file: u32,
    fault: CaptureFault,
) -> CaptureFault
    requires { IsSome ((F.view files.old).part file) }
    ensures stays { StaysOrFails (F.view files.old) (F.view files.new) file fault result }
    ensures last { IsToldLast (F.view files.old) (F.view files.new) file result }
    ensures some { TookSome (F.view files.old) (F.view files.new) file }
{
    let Ok(mut piece) = Vec::from_elem(alloc, 0u8, 65_536) else {
        return CaptureFault::NoMemory;
    };
    match take_rest(files, file, &mut piece) {
        Ok(()) => fault,
        Err(Trouble::Failed) => CaptureFault::Read,
        Err(Trouble::NoMemory) => CaptureFault::NoMemory,
    }
}

/// The records of the capture that an opened file has left, at most 4,000,000, in the order of the file. `Damage` and `Limit` come only where the bytes
/// fail a test, and are told only once the file was read to its end, or more than 2^30 bytes of it: where a read of it fails the
/// answer is `Read`. That comes only where the count of read faults of the file's part rose in this call. Takes time in proportion to
/// the file, and memory for the records alone.
#[tactic(auto, using(play_base::proofs::ViewLaws::same_trans, play_base::proofs::ViewLaws::same_refl))]
pub fn read_records<F: Files>(
    alloc: Global,
    files: &mut F,
    file: u32,
) -> Result<Records, CaptureFault>
    requires { IsSome ((F.view files.old).part file) }
    ensures whole { IfOk result (λ answers. (bytes : List ℕ) → (F.view files.old).left file ≡ Some bytes → AreRecords bytes answers) }
    ensures few { IfOk result (λ answers. length answers ≤ 4000000) }
    ensures fault { IfErr result (λ fault. (bytes : List ℕ) → (F.view files.old).left file ≡ Some bytes → HasFault bytes fault) }
    ensures last { IfErr result (IsToldLast (F.view files.old) (F.view files.new) file) }
    ensures read { IsErrOf result CaptureFault.Read → ReadFault (F.view files.old) (F.view files.new) file }
    ensures no_fault { OnOk result (SameCounts (F.view files.old) (F.view files.new)) }
    ensures some { TookSome (F.view files.old) (F.view files.new) file }
{
    match records_of(alloc, files, file) {
        Ok(records) => Ok(records),
        Err(CaptureFault::Read) => Err(CaptureFault::Read),
        Err(CaptureFault::NoMemory) => Err(CaptureFault::NoMemory),
        Err(fault) => Err(told_after(alloc, files, file, fault)),
    }
}
