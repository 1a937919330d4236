// Taking bytes of a file to the end of those that were taken before.
ghost use Rattle.std.specs.Prelude.{◌≡◌, ◌⊎◌, ◌≤◌, length, IsSome, OnOk, IsErrOf};
ghost use Rattle.play_base.specs.View.{IsAtEnd, ReadFault, SameCounts};
ghost use Rattle.arrivals_front.specs.Taking.{Gained, TookUpTo};

use play_base::{Files, Trouble};

/// The most bytes of one read.
const PIECE: usize = 65_536;

/// Takes bytes of the file to the end of `taken`, until there are `wanted` or the file ends, and never more. `Failed` comes only where the
/// count of read faults of the file's part rose. After an error `taken` ends with some of the bytes that were taken. One pass, by pieces of
/// 65,536 bytes.
#[tactic(auto, using(play_base::proofs::ViewLaws::same_trans, play_base::proofs::ViewLaws::same_refl))]
pub fn take_to<F: Files>(
    files: &mut F,
    file: u32,
    taken: &mut Vec<u8>,
    wanted: usize,
) -> Result<(), Trouble>
    requires there { IsSome ((F.view files.old).part file) }
    requires room { length taken.old.items ≤ wanted }
    ensures gained { OnOk result (Gained (F.view files.old) (F.view files.new) file taken.old.items taken.new.items) }
    ensures enough { OnOk result ((length taken.new.items ≡ wanted) ⊎ IsAtEnd (F.view files.new) file) }
    ensures most { length taken.new.items ≤ wanted }
    ensures failed { IsErrOf result Trouble.Failed → ReadFault (F.view files.old) (F.view files.new) file }
    ensures took { TookUpTo (F.view files.old) (F.view files.new) file wanted }
    ensures no_fault { OnOk result (SameCounts (F.view files.old) (F.view files.new)) }
{
    let mut piece = [0u8; PIECE];
    while taken.len() < wanted {
        let most = (wanted - taken.len()).min(PIECE);
        let count = match files.read(file, &mut piece[..most]) {
            Ok(count) => count,
            Err(trouble) => return Err(trouble),
        };
        if count == 0 {
            return Ok(());
        }
        if taken.extend_from_slice(&piece[..count]).is_err() {
            return Err(Trouble::NoMemory);
        }
    }
    Ok(())
}
