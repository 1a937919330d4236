// The departures that rows of fates leave.
ghost use Rattle.std.specs.Prelude.{◌≡◌, IfOk, MatchOption};
ghost use Rattle.fate_departures.specs.Departures.{AreDepartures, DepartOtherwise};
ghost use Rattle.fate_departures.specs.Frames.{frames_in};

use crate::frames::Frames;
use crate::records::behind;
use discipline::Classify;
use fate_check::Row;
use pcap_files::head_bytes;
use play_base::NoMemory;
use std::alloc::Global;

/// The first row whose record does not stand in its place in the departures: the header of a capture, and then the record of each
/// sending, in the order of the rows, with the bytes with which `classify` lets the packet leave. A packet may leave marked where the
/// queue of its class marks and its precedence is 1. A row is counted from 1; 0 says that the header is another one, and a row behind
/// the last that the departures go on. None comes exactly where the departures are those of the rows.
///
/// One pass over rows and departures; memory for one packet at a time.
pub fn first_other_departure<C: Classify>(
    alloc: Global,
    classify: &C,
    frames: &Frames<'_>,
    rows: &[Row],
    departures: &[u8],
) -> Result<Option<u64>, NoMemory>
    ensures { IfOk result (λ o. MatchOption o (AreDepartures (C.dressed classify.now) (frames_in frames.now) rows.now departures.now)
        (DepartOtherwise (C.dressed classify.now) (frames_in frames.now) rows.now departures.now)) }
{
    let header = head_bytes();
    let Some(mut rest) = departures.strip_prefix(&header) else {
        return Ok(Some(0));
    };
    let mut room = Vec::new(alloc);
    for (i, row) in rows.iter().enumerate() {
        match behind(&mut room, classify, frames, row, rest)? {
            Some(more) => rest = more,
            None => return Ok(Some(i as u64 + 1)),
        }
    }
    if rest.is_empty() {
        Ok(None)
    } else {
        Ok(Some(rows.len() as u64 + 1))
    }
}
