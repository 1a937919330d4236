// Writing whole pieces.
ghost use Rattle.std.specs.Prelude.{IsSome, OnOk, OnErr, IsErrOf};
ghost use Rattle.play_base.specs.View.{SameCounts, Wrote, WroteFront, WriteFault};

use crate::{Files, Trouble};

/// Writes all the bytes, and no count rises; or after an error writes a front of them. `Failed` comes only where the count of write faults of the file's
/// part rose in this call.
pub fn write_all<F: Files>(files: &mut F, file: u32, bytes: &[u8]) -> Result<(), Trouble>
    requires { IsSome ((F.view files.old).part file) }
    ensures wrote { OnOk result (Wrote (F.view files.old) (F.view files.new) file bytes.now) }
    ensures counts { OnOk result (SameCounts (F.view files.old) (F.view files.new)) }
    ensures front { OnErr result (WroteFront (F.view files.old) (F.view files.new) file bytes.now) }
    ensures failed { IsErrOf result Trouble.Failed → WriteFault (F.view files.old) (F.view files.new) file }
{
    let mut at = 0;
    while at < bytes.len() {
        let count = match files.write(file, &bytes[at..]) {
            Ok(count) => count,
            Err(trouble) => return Err(trouble),
        };
        if count == 0 {
            return Err(Trouble::Failed);
        }
        at += count;
    }
    Ok(())
}
