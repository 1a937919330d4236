// How a file of arrivals is read.
ghost use Rattle.std.specs.Prelude.{◌≡◌, ◌≤◌, List, ℕ, true, Some, length, IsSome, IfOk, IfErr, OnOk};
ghost use Rattle.capture_model.specs.Capture.{most_bytes};
ghost use Rattle.play_base.specs.View.{SameCounts};
ghost use Rattle.arrivals_front.specs.Given.{Follows, IsBegunAt, IsCutShort, IsRefused, conversion_fault, is_pcapng, read_fault};
ghost use Rattle.arrivals_front.specs.Taking.{IsRestOf, TookSome};

use crate::taking::take_to;
use pcapng_files::{NgFault, NgPlace, convert};
use pcapng_model::long_files_are_a_limit;
use play_base::{Files, Trouble};
use std::alloc::Global;

/// The type of a section header block, with which a pcapng file begins.
const SECTION: [u8; 4] = [0x0a, 0x0d, 0x0d, 0x0a];

/// The most bytes of a pcapng file.
const MOST: usize = 1 << 30;

/// The bytes that stand in front of what the file of the arrivals has left, and what follows them.
#[derive(Drop)]
pub struct Given {
    pub front: Vec<u8>,
    /// What the file has left follows the front: it holds a classic capture.
    pub rest: bool,
}

/// Why the arrivals cannot be read, before their first record is.
#[derive(Clone, Copy, Debug, PartialEq, Eq)]
pub enum GivenFault {
    /// A pcapng file: the first test that a block fails, and the place of that block.
    At(NgPlace),
    /// A pcapng file has more than 2^30 bytes, or holds a packet behind 4,000,000 others.
    Limit,
    /// A read failed.
    Read,
    /// No memory was left.
    NoMemory,
}

// Whether the bytes are the first of a pcapng file.
fn begins_section(bytes: &[u8]) -> bool
    ensures { result ≡ is_pcapng bytes.now }
{
    bytes.starts_with(&SECTION)
}

// What trouble with a read means.
fn read_fault(trouble: Trouble) -> GivenFault
    ensures { result ≡ read_fault trouble }
{
    match trouble {
        Trouble::Failed => GivenFault::Read,
        Trouble::NoMemory => GivenFault::NoMemory,
    }
}

// Why a pcapng file is not converted.
fn conversion_fault(fault: NgFault) -> GivenFault
    ensures { result ≡ conversion_fault fault }
{
    match fault {
        NgFault::At(place) => GivenFault::At(place),
        NgFault::Limit => GivenFault::Limit,
        NgFault::NoMemory => GivenFault::NoMemory,
    }
}

// All of a pcapng file of which these bytes were taken.
#[tactic(auto, using(play_base::proofs::ViewLaws::same_trans, play_base::proofs::ViewLaws::same_refl))]
fn whole_file<F: Files>(files: &mut F, file: u32, taken: &mut Vec<u8>) -> Result<(), GivenFault>
    requires there { IsSome ((F.view files.old).part file) }
    requires few { length taken.old.items ≤ 4 }
    ensures whole { OnOk result (IsRestOf (F.view files.old) (F.view files.new) file taken.old.items taken.new.items) }
    ensures short { OnOk result (length taken.new.items ≤ most_bytes) }
    ensures cut { IfErr result (IsCutShort (F.view files.old) (F.view files.new) file taken.old.items) }
    ensures took { TookSome (F.view files.old) (F.view files.new) file }
    ensures no_fault { OnOk result (SameCounts (F.view files.old) (F.view files.new)) }
{
    match take_to(files, file, taken, MOST + 1) {
        Ok(()) => {}
        Err(trouble) => return Err(read_fault(trouble)),
    }
    if taken.len() > MOST {
        return Err(GivenFault::Limit);
    }
    Ok(())
}

/// Takes the first four bytes of the arrivals, in a loop, since a read may give one. Where they are those of a pcapng file, all of it is
/// taken, and what is played of it is the classic capture of its packets. Every other file is played as it stands, and no more than
/// four bytes of it are taken. `At` and `Limit` come only of a pcapng file, exactly where it has no such capture. `Read` comes only
/// where the count of read faults of the file's part rose. One pass; a pcapng file takes memory for at most twice its bytes, and what
/// `convert` takes for the interfaces of a section.
#[tactic(auto, using(play_base::proofs::ViewLaws::same_trans, play_base::proofs::ViewLaws::same_refl))]
pub fn given_arrivals<F: Files>(
    alloc: Global,
    files: &mut F,
    file: u32,
) -> Result<Given, GivenFault>
    requires there { IsSome ((F.view files.old).part file) }
    ensures given { IfOk result (λ g. (given : List ℕ) → (F.view files.old).left file ≡ Some given → Follows (F.view files.new) file given g) }
    ensures begun { IfOk result (λ g. (given : List ℕ) → (F.view files.old).left file ≡ Some given → IsBegunAt (F.view files.new) file given) }
    ensures few { IfOk result (λ g. g.rest ≡ true → length g.front.items ≤ 4) }
    ensures refused { IfErr result (IsRefused (F.view files.old) (F.view files.new) file) }
    ensures took { TookSome (F.view files.old) (F.view files.new) file }
    ensures no_fault { OnOk result (SameCounts (F.view files.old) (F.view files.new)) }
{
    let mut taken = Vec::new(alloc);
    match take_to(files, file, &mut taken, 4) {
        Ok(()) => {}
        Err(trouble) => return Err(read_fault(trouble)),
    }
    if !begins_section(taken.as_slice()) {
        return Ok(Given {
            front: taken,
            rest: true,
        });
    }
    long_files_are_a_limit();
    match whole_file(files, file, &mut taken) {
        Ok(()) => {}
        Err(fault) => return Err(fault),
    }
    match convert(alloc, taken) {
        Ok(front) => Ok(Given { front, rest: false }),
        Err(fault) => Err(conversion_fault(fault)),
    }
}
