// Rows of fates, in pieces.
ghost use Rattle.std.specs.Prelude.{◌≡◌, ◌≤◌, [], length, IsSome, OnOk, OnErr, IsErrOf};
ghost use Rattle.play_base.specs.View.{SameCounts, Wrote, WroteFront, WriteFault};
ghost use Rattle.play_text.specs.Names.{HasClass, name_of};
ghost use Rattle.play_text.specs.Texts.{fate_text};
ghost use Rattle.gathered_writes.specs.Gathered.{Grew, Stopped};

use altq_model::Fate;
use play_base::{Files, Trouble, write_all};
use play_text::{Names, Rows};

/// Rows are written once they have more bytes than this. A row has fewer than 256, so no more than 65,536 are gathered.
const ROWS_BOUND: usize = 65_536 - 256;

/// What a row tells of a packet: its number from 1, its arrival in nanoseconds, its length in bytes, its class, and its fate.
#[derive(Clone, Copy)]
pub struct FateRow {
    pub number: u64,
    pub at: u64,
    pub len: u32,
    pub class: u32,
    pub fate: Fate,
}

/// Adds the row of a packet's fate to those that are gathered for a file, and writes the rows once they have more than 65,280 bytes.
/// After an error a front of all of it was written.
#[inline(always)]
#[tactic(auto, using(play_base::proofs::ViewLaws::same_trans, play_base::proofs::ViewLaws::same_refl))]
pub fn gather_row<F: Files>(
    files: &mut F,
    file: u32,
    rows: &mut Rows,
    names: &Names,
    row: FateRow,
) -> Result<(), Trouble>
    requires there { IsSome ((F.view files.old).part file) }
    requires named { HasClass names.now row.class }
    ensures grew { OnOk result (Grew (F.view files.old) (F.view files.new) file rows.old rows.new
        (fate_text row.number row.at row.len (name_of names.now row.class) row.fate)) }
    ensures bounded { OnOk result (length rows.new ≤ 65280) }
    ensures no_fault { OnOk result (SameCounts (F.view files.old) (F.view files.new)) }
    ensures stopped { OnErr result (Stopped (F.view files.old) (F.view files.new) file rows.old
        (fate_text row.number row.at row.len (name_of names.now row.class) row.fate)) }
    ensures failed { IsErrOf result Trouble.Failed → WriteFault (F.view files.old) (F.view files.new) file }
{
    let FateRow {
        number,
        at,
        len,
        class,
        fate,
    } = row;
    let Ok(()) = rows.add(names, number, at, len, class, &fate) else {
        return Err(Trouble::NoMemory);
    };
    if rows.most() <= ROWS_BOUND {
        return Ok(());
    }
    bound_rows(files, file, rows)
}

// Writes the rows if they are too many, which their bound alone does not tell.
#[cold]
#[inline(never)]
#[tactic(auto, using(play_base::proofs::ViewLaws::same_trans, play_base::proofs::ViewLaws::same_refl))]
fn bound_rows<F: Files>(files: &mut F, file: u32, rows: &mut Rows) -> Result<(), Trouble>
    requires there { IsSome ((F.view files.old).part file) }
    ensures grew { OnOk result (Grew (F.view files.old) (F.view files.new) file rows.old rows.new []) }
    ensures bounded { OnOk result (length rows.new ≤ 65280) }
    ensures no_fault { OnOk result (SameCounts (F.view files.old) (F.view files.new)) }
    ensures stopped { OnErr result (Stopped (F.view files.old) (F.view files.new) file rows.old []) }
    ensures failed { IsErrOf result Trouble.Failed → WriteFault (F.view files.old) (F.view files.new) file }
{
    let Ok(()) = rows.flush_pending() else {
        return Err(Trouble::NoMemory);
    };
    if rows.most() <= ROWS_BOUND {
        return Ok(());
    }
    match flush_rows(files, file, rows) {
        Ok(()) => Ok(()),
        Err(trouble) => Err(trouble),
    }
}

/// Writes the rows that are gathered for a file, and takes them away. After an error a front of them was written.
#[tactic(auto, using(play_base::proofs::ViewLaws::same_trans, play_base::proofs::ViewLaws::same_refl))]
pub fn flush_rows<F: Files>(files: &mut F, file: u32, rows: &mut Rows) -> Result<(), Trouble>
    requires { IsSome ((F.view files.old).part file) }
    ensures wrote { OnOk result (Wrote (F.view files.old) (F.view files.new) file rows.old) }
    ensures empty { OnOk result (rows.new ≡ []) }
    ensures no_fault { OnOk result (SameCounts (F.view files.old) (F.view files.new)) }
    ensures front { OnErr result (WroteFront (F.view files.old) (F.view files.new) file rows.old) }
    ensures failed { IsErrOf result Trouble.Failed → WriteFault (F.view files.old) (F.view files.new) file }
{
    let Ok(text) = rows.take_text() else {
        return Err(Trouble::NoMemory);
    };
    match write_all(files, file, &text) {
        Ok(()) => {
            rows.reuse(text);
            Ok(())
        }
        Err(trouble) => Err(trouble),
    }
}
