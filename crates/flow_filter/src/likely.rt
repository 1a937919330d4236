//! Where the filters of a port begin and where they end, mostly at one look.
ghost use Rattle.std.specs.Prelude.{IfOk};
ghost use Rattle.flow_filter.specs.Filed.{EntriesAreInOrder};
ghost use Rattle.flow_filter.specs.Search.{AreStretches, IsStretch};

use crate::ports::{Filed, Stretch, search};
use play_base::NoMemory;
use std::alloc::Global;

/// How many stretches are kept. Ports that leave the same remainder by this number share one.
const KEPT: usize = 1024;

/// With fewer filters than this a search is as quick.
const FEW: usize = 8;

/// Of each remainder the stretch of a port that leaves it, if any filter has such a port, else that of port 0. None where filters are
/// few.
pub(crate) fn likely_stretches(alloc: Global, filed: &[Filed]) -> Result<Vec<Stretch>, NoMemory>
    ensures { IfOk result (λ likely. EntriesAreInOrder filed.now → AreStretches filed.now likely.items) }
{
    if filed.len() < FEW {
        return Ok(Vec::new(alloc));
    }
    let mut likely = Vec::from_elem(alloc, search(filed, 0), KEPT)?;
    for one in filed {
        if let Some(kept) = likely.get_mut(usize::from(one.port) % KEPT) {
            *kept = search(filed, one.port);
        }
    }
    Ok(likely)
}

/// The stretch of a port: the one that is kept, if it is that port's, else by a search.
#[inline]
pub(crate) fn stretch(filed: &[Filed], likely: &[Stretch], port: u16) -> Stretch
    ensures { EntriesAreInOrder filed.now → AreStretches filed.now likely.now → IsStretch filed.now port result.start result.end }
{
    match likely.get(usize::from(port) % KEPT) {
        Some(kept) if kept.port == port => *kept,
        _ => search(filed, port),
    }
}
