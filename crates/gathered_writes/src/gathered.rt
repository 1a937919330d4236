// Bytes in pieces.
ghost use Rattle.std.specs.Prelude.{◌≡◌, ◌≤◌, ◌<◌, ◌+◌, ◌^◌, ◌++◌, ◌↔◌, [], List, ℕ, length, IsSome, IsTrue, OnOk, OnErr, IsErrOf, max, vec_len};
ghost use Rattle.play_base.specs.View.{SameCounts, Wrote, WroteFront, WriteFault};
ghost use Rattle.gathered_writes.specs.Gathered.{Grew, Stopped};

use play_base::{Files, Trouble, write_all};

/// How many bytes are gathered at most.
const BOUND: usize = 65_536;

/// Adds bytes to those that are gathered for a file; where they would be too many, those before them are written first. A
/// text longer than the bound is written by itself. After an error a front of all of it was written.
#[inline(always)]
#[tactic(auto, using(play_base::proofs::ViewLaws::same_trans, play_base::proofs::ViewLaws::same_refl))]
pub fn gather<F: Files>(
    files: &mut F,
    file: u32,
    pending: &mut Vec<u8>,
    bytes: &[u8],
) -> Result<(), Trouble>
    requires { IsSome ((F.view files.old).part file) }
    ensures grew { OnOk result (Grew (F.view files.old) (F.view files.new) file pending.old.items pending.new.items bytes.now) }
    ensures bounded { OnOk result (vec_len pending.new ≤ max (vec_len pending.old) 65536) }
    ensures no_fault { OnOk result (SameCounts (F.view files.old) (F.view files.new)) }
    ensures stopped { OnErr result (Stopped (F.view files.old) (F.view files.new) file pending.old.items bytes.now) }
    ensures failed { IsErrOf result Trouble.Failed → WriteFault (F.view files.old) (F.view files.new) file }
{
    if pending.len() + bytes.len() <= BOUND {
        return match pending.extend_from_slice(bytes) {
            Ok(()) => Ok(()),
            Err(_) => Err(Trouble::NoMemory),
        };
    }
    gather_anew(files, file, pending, bytes)
}

// Writes what is gathered, and gathers these bytes alone, or writes them too where they are longer than the bound.
#[cold]
#[inline(never)]
#[tactic(auto, using(play_base::proofs::ViewLaws::same_trans, play_base::proofs::ViewLaws::same_refl))]
fn gather_anew<F: Files>(
    files: &mut F,
    file: u32,
    pending: &mut Vec<u8>,
    bytes: &[u8],
) -> Result<(), Trouble>
    requires { IsSome ((F.view files.old).part file) }
    ensures grew { OnOk result (Grew (F.view files.old) (F.view files.new) file pending.old.items pending.new.items bytes.now) }
    ensures bounded { OnOk result (vec_len pending.new ≤ max (vec_len pending.old) 65536) }
    ensures no_fault { OnOk result (SameCounts (F.view files.old) (F.view files.new)) }
    ensures stopped { OnErr result (Stopped (F.view files.old) (F.view files.new) file pending.old.items bytes.now) }
    ensures failed { IsErrOf result Trouble.Failed → WriteFault (F.view files.old) (F.view files.new) file }
{
    match flush(files, file, pending) {
        Ok(()) => {}
        Err(trouble) => return Err(trouble),
    }
    if bytes.len() > BOUND {
        return match write_all(files, file, bytes) {
            Ok(()) => Ok(()),
            Err(trouble) => Err(trouble),
        };
    }
    match pending.extend_from_slice(bytes) {
        Ok(()) => Ok(()),
        Err(_) => Err(Trouble::NoMemory),
    }
}

// Whether `more` bytes can be gathered without a write.
#[inline(always)]
pub(crate) fn fits(pending: &Vec<u8>, more: usize) -> bool
    requires { more < 2 ^ 63 }
    ensures { IsTrue result ↔ (vec_len pending.now + more ≤ 65536) }
{
    pending.len() + more <= BOUND
}

// Adds a head, and then the bytes behind it.
#[cold]
#[inline(never)]
#[tactic(auto, using(play_base::proofs::ViewLaws::same_trans, play_base::proofs::ViewLaws::same_refl))]
pub(crate) fn gather_each<F: Files>(
    files: &mut F,
    file: u32,
    pending: &mut Vec<u8>,
    head: &[u8],
    bytes: &[u8],
) -> Result<(), Trouble>
    requires { IsSome ((F.view files.old).part file) }
    ensures grew { OnOk result (Grew (F.view files.old) (F.view files.new) file pending.old.items pending.new.items (head.now ++ bytes.now)) }
    ensures bounded { OnOk result (vec_len pending.new ≤ max (vec_len pending.old) 65536) }
    ensures no_fault { OnOk result (SameCounts (F.view files.old) (F.view files.new)) }
    ensures stopped { OnErr result (Stopped (F.view files.old) (F.view files.new) file pending.old.items (head.now ++ bytes.now)) }
    ensures failed { IsErrOf result Trouble.Failed → WriteFault (F.view files.old) (F.view files.new) file }
{
    match gather(files, file, pending, head) {
        Ok(()) => {}
        Err(trouble) => return Err(trouble),
    }
    match gather(files, file, pending, bytes) {
        Ok(()) => Ok(()),
        Err(trouble) => Err(trouble),
    }
}

/// Writes what is gathered for a file. After an error a front of it was written.
#[tactic(auto, using(play_base::proofs::ViewLaws::same_trans, play_base::proofs::ViewLaws::same_refl))]
pub fn flush<F: Files>(files: &mut F, file: u32, pending: &mut Vec<u8>) -> Result<(), Trouble>
    requires { IsSome ((F.view files.old).part file) }
    ensures wrote { OnOk result (Wrote (F.view files.old) (F.view files.new) file pending.old.items) }
    ensures empty { OnOk result (pending.new.items ≡ []) }
    ensures no_fault { OnOk result (SameCounts (F.view files.old) (F.view files.new)) }
    ensures front { OnErr result (WroteFront (F.view files.old) (F.view files.new) file pending.old.items) }
    ensures failed { IsErrOf result Trouble.Failed → WriteFault (F.view files.old) (F.view files.new) file }
{
    match write_all(files, file, pending) {
        Ok(()) => {
            pending.clear();
            Ok(())
        }
        Err(trouble) => Err(trouble),
    }
}
