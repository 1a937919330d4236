// The bytes that a file has left.
ghost use Rattle.std.specs.Prelude.{◌≡◌, ◌≤◌, ◌<◌, length, IsErrOf, IsSome, IfOk, OnOk};
ghost use Rattle.pcap_files.specs.Ahead.{TookSome};
ghost use Rattle.play_base.specs.View.{IsAtEnd, ReadFault, SameCounts, Took};

use crate::taken::Taken;
use play_base::{Files, Trouble};
use std::alloc::Global;

/// The next bytes of what an opened file has left: all, or the first `most` where there are more. No more than `most` bytes are
/// taken, in pieces of at most 65,536. `Failed` comes only where the count of read faults of the file's part rose in this call. Takes
/// time and memory in proportion to the bytes.
pub fn read_front<F: Files>(
    alloc: Global,
    files: &mut F,
    file: u32,
    most: usize,
) -> Result<Vec<u8>, Trouble>
    requires there { IsSome ((F.view files.old).part file) }
    ensures taken { IfOk result (λ all. Took (F.view files.old) (F.view files.new) file all.items) }
    ensures few { IfOk result (λ all. length all.items ≤ most) }
    ensures whole { IfOk result (λ all. length all.items < most → IsAtEnd (F.view files.new) file) }
    ensures no_fault { OnOk result (SameCounts (F.view files.old) (F.view files.new)) }
    ensures failed { IsErrOf result Trouble.Failed → ReadFault (F.view files.old) (F.view files.new) file }
    ensures some { TookSome (F.view files.old) (F.view files.new) file }
{
    let Ok(mut taken) = Taken::new(alloc) else {
        return Err(Trouble::NoMemory);
    };
    match taken.fill(files, file, most) {
        Ok(()) => Ok(taken.into_bytes()),
        Err(trouble) => Err(trouble),
    }
}
