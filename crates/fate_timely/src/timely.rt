// Due moments of the packets that rows send.
ghost use Rattle.std.specs.Prelude.{◌≡◌, ◌<◌, ◌≤◌, ◌^◌, ◌++◌, [], ℕ, Some, IfErr, IfOk, IfSome, OnOk, length};
ghost use Rattle.fate_judge.specs.Walk.{EachRow, FirstFails};
ghost use Rattle.fate_timely.specs.Dues.{AreRealTime, added, listed};
ghost use Rattle.fate_timely.specs.Overdue.{IfAt};
ghost use Rattle.fate_timely.specs.Timely.{EndsInTime, StartsInTurn, lates};

use crate::dues::Dues;
use crate::given::{Late, Overdue};
use crate::leaf::Leaf;
use fate_check::Row;
use play_base::NoMemory;
use service_curve::Curve;
use std::alloc::Global;

// Adds how late a class came, if it has a curve.
fn add(late: &mut Vec<Late>, class: u32, leaf: Option<Leaf>) -> Result<(), NoMemory>
    ensures { OnOk result (late.new.items ≡ late.old.items ++ added class leaf) }
{
    if let Some(leaf) = leaf {
        late.push(Late {
            class,
            worst: leaf.worst,
        })?;
    }
    Ok(())
}

// How late each class with a curve came.
fn lates(alloc: Global, leaves: &[Option<Leaf>]) -> Result<Vec<Late>, NoMemory>
    requires { length leaves.now ≤ 2 ^ 32 }
    ensures { IfOk result (λ late. late.items ≡ listed 0 leaves.now) }
{
    let mut late = Vec::new(alloc);
    for (class, leaf) in leaves.iter().enumerate() {
        add(&mut late, class as u32, *leaf)?;
    }
    Ok(late)
}

/// How late each class with a real-time curve came: the greatest end less due moment of its packets. `curves` has the curve of each class
/// that has one, at most 2^32; a curve whose slope rises rises from 0. A moment is due for a packet where from each opening on, by the
/// class's arrivals and starts alone, the curve has given by then all that the class sent up to and with the packet; the due moment is
/// the first such moment, and a packet may have none.
///
/// Where there is a bound `most` in nanoseconds, below 2^120, `At` comes exactly where a packet ends more than `most` after a moment that
/// is due for it, with the first such row. There are at most 2^32 rows; no packet is empty, none starts before it arrives nor before one
/// of an earlier row. One pass over the rows, constant time for each; memory for each class.
pub fn lateness(
    alloc: Global,
    most: Option<u128>,
    curves: &[Option<Curve>],
    rows: &[Row],
) -> Result<Vec<Late>, Overdue>
    requires most { IfSome most (λ t. t < 2 ^ 120) }
    requires real_time { AreRealTime curves.now }
    requires classes { length curves.now ≤ 2 ^ 32 }
    requires few { length rows.now ≤ 2 ^ 32 }
    requires in_turn { EachRow StartsInTurn [] rows.now }
    ensures late { IfOk result (λ late. late.items ≡ lates curves.now rows.now) }
    ensures timely { OnOk result ((m : ℕ) → most ≡ Some m → EachRow (EndsInTime curves.now m) [] rows.now) }
    ensures overdue { IfErr result (IfAt (λ row. (m : ℕ) × (most ≡ Some m) × FirstFails (EndsInTime curves.now m) rows.now row)) }
{
    let mut dues = Dues::new(alloc, curves)?;
    for (i, row) in rows.iter().enumerate() {
        if !dues.passes(most, row) {
            return Err(Overdue::At(i as u64 + 1));
        }
    }
    match lates(alloc, &dues.leaves) {
        Ok(late) => Ok(late),
        Err(_) => Err(Overdue::NoMemory),
    }
}
