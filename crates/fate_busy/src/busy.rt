// Sendings that start as soon as they can.
ghost use Rattle.std.specs.Prelude.{[], IfOk, MatchOption, length};
ghost use Rattle.altq_model.specs.Lawful.{AreRising};
ghost use Rattle.fate_judge.specs.Given.{bare_arrivals};
ghost use Rattle.fate_judge.specs.Tests.{IsNumbered};
ghost use Rattle.fate_judge.specs.Walk.{EachRow, FirstFails};
ghost use Rattle.fate_busy.specs.Busy.{StartsAtOnce};

use crate::left::Left;
use fate_check::Row;
use fate_judge::Arrived;
use play_base::NoMemory;
use std::alloc::Global;

/// The first row that is a sending which does not start as soon as it can: at the greater of the end of the sending before it and the
/// least arrival of the packets that no row drops and no row before it sends. So the link idles there while a packet waits, or a packet
/// starts before any that may. None comes exactly where each sending does. Rows are counted from 1. Arrivals stand in order of number,
/// and none is before the one before it.
///
/// Two passes over the rows and one over the arrivals; a byte for each arrival.
pub fn first_idle(alloc: Global, arrived: &[Arrived], rows: &[Row]) -> Result<Option<u64>, NoMemory>
    requires rising { AreRising (bare_arrivals arrived.now) }
    requires numbered { EachRow (IsNumbered (length arrived.now)) [] rows.now }
    ensures { IfOk result (λ o. MatchOption o (EachRow (StartsAtOnce (bare_arrivals arrived.now) rows.now) [] rows.now)
        (FirstFails (StartsAtOnce (bare_arrivals arrived.now) rows.now) rows.now)) }
{
    let mut left = Left::new(alloc, arrived.len(), rows)?;
    for (i, row) in rows.iter().enumerate() {
        if !left.passes(arrived, row) {
            return Ok(Some(i as u64 + 1));
        }
    }
    Ok(None)
}
