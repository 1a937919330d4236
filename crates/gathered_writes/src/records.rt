// Records of a capture, in pieces.
ghost use Rattle.std.specs.Prelude.{◌≡◌, ◌≤◌, ◌<◌, ◌*◌, ◌^◌, ◌+◌, ◌++◌, length, max, vec_len, IsSome, OnOk, OnErr, IsErrOf};
ghost use Rattle.capture_model.specs.Written.{record_text};
ghost use Rattle.play_base.specs.View.{SameCounts, WriteFault};
ghost use Rattle.gathered_writes.specs.Gathered.{Grew, Stopped};

use crate::gathered::{fits, gather_each};
use pcap_files::{put_record_head, record_head};
use play_base::{Files, NoMemory, Trouble};

/// The bytes of a record's header.
const RECORD_HEAD: usize = 16;

/// Adds a record to the bytes that are gathered for a file: its header, with its stamp in nanoseconds, how many bytes it has and the
/// length on the link, and then these bytes. Of more than 65,536 bytes those before it are written first, so no more are gathered. After
/// an error a front of all of it was written.
#[tactic(auto, using(play_base::proofs::ViewLaws::same_trans, play_base::proofs::ViewLaws::same_refl))]
#[inline(always)]
pub fn gather_record<F: Files>(
    files: &mut F,
    file: u32,
    pending: &mut Vec<u8>,
    stamp: u64,
    bytes: &[u8],
    len: u32,
) -> Result<(), Trouble>
    requires there { IsSome ((F.view files.old).part file) }
    requires early { stamp < 2 ^ 32 * 10 ^ 9 }
    requires within { length bytes.now ≤ len }
    ensures grew { OnOk result (Grew (F.view files.old) (F.view files.new) file pending.old.items pending.new.items
        (record_text (record { stamp = stamp; captured = bytes.now; original = len }))) }
    ensures bounded { OnOk result (vec_len pending.new ≤ max (vec_len pending.old) 65536) }
    ensures no_fault { OnOk result (SameCounts (F.view files.old) (F.view files.new)) }
    ensures stopped { OnErr result (Stopped (F.view files.old) (F.view files.new) file pending.old.items
        (record_text (record { stamp = stamp; captured = bytes.now; original = len }))) }
    ensures failed { IsErrOf result Trouble.Failed → WriteFault (F.view files.old) (F.view files.new) file }
{
    if !fits(pending, RECORD_HEAD + bytes.len()) {
        let head = record_head(stamp, bytes.len() as u32, len);
        return match gather_each(files, file, pending, &head, bytes) {
            Ok(()) => Ok(()),
            Err(trouble) => Err(trouble),
        };
    }
    match add_record(pending, stamp, bytes, len) {
        Ok(()) => Ok(()),
        Err(_) => Err(Trouble::NoMemory),
    }
}

// Adds a record to bytes. Its header is written in place: to copy it right after its four parts were written would wait for them.
#[inline(always)]
fn add_record(pending: &mut Vec<u8>, stamp: u64, bytes: &[u8], len: u32) -> Result<(), NoMemory>
    requires early { stamp < 2 ^ 32 * 10 ^ 9 }
    requires within { length bytes.now ≤ len }
    ensures long { OnOk result (vec_len pending.new ≡ vec_len pending.old + 16 + length bytes.now) }
    ensures added { OnOk result (pending.new.items ≡ pending.old.items ++ record_text (record { stamp = stamp; captured = bytes.now; original = len })) }
{
    let from = pending.len();
    pending.extend_from_slice(&[0; RECORD_HEAD])?;
    put_record_head(&mut pending[from..], stamp, bytes.len() as u32, len);
    pending.extend_from_slice(bytes)?;
    Ok(())
}
