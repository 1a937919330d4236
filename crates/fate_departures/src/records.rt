// Records at the front of departures.
ghost use Rattle.std.specs.Prelude.{◌≡◌, ◌<◌, ◌*◌, ◌^◌, ◌++◌, ℕ, List, IfOk, MatchOption, OnOk, length};
ghost use Rattle.altq_model.specs.Laws.{clock_end};
ghost use Rattle.capture_model.specs.Written.{record_text};
ghost use Rattle.fate_departures.specs.Departures.{LeavesFront, LeavesNoFront, leaving};
ghost use Rattle.fate_departures.specs.Frames.{frame_of, frames_in};

use crate::frames::Frames;
use altq_model::Fate;
use discipline::Classify;
use fate_check::Row;
use pcap_files::record_head;
use play_base::NoMemory;

// The end of the clock, 2^32 seconds in nanoseconds: no capture stamps it.
const CLOCK_END: u64 = 4_294_967_296_000_000_000;

// Lets a room hold the bytes with which a frame departs, and nothing else.
fn dress<C: Classify>(
    room: &mut Vec<u8>,
    classify: &C,
    class: u32,
    marked: bool,
    frame: &[u8],
) -> Result<(), NoMemory>
    ensures { OnOk result (room.new.items ≡ C.dressed classify.now class marked frame.now) }
{
    room.clear();
    room.extend_from_slice(frame)?;
    classify.dress(class, marked, room);
    Ok(())
}

// What stands behind a head, if it stands at the front. Sixteen bytes of an array are compared without a call.
fn behind_head<'a>(rest: &'a [u8], head: &[u8; 16]) -> Option<&'a [u8]>
    ensures { MatchOption result ((more : List ℕ) → rest.now ≡ head.now ++ more → ⊥) (λ more. rest.now ≡ head.now ++ more.now) }
{
    let Some((front, more)) = rest.split_first_chunk::<16>() else {
        return None;
    };
    if front == head { Some(more) } else { None }
}

// What stands behind a head and bytes, if they stand at the front.
#[inline(always)]
fn behind_both<'a>(rest: &'a [u8], head: &[u8; 16], bytes: &[u8]) -> Option<&'a [u8]>
    ensures { MatchOption result ((more : List ℕ) → rest.now ≡ (head.now ++ bytes.now) ++ more → ⊥) (λ more. rest.now ≡ (head.now ++ bytes.now) ++ more.now) }
{
    match behind_head(rest, head) {
        Some(more) => more.strip_prefix(bytes),
        None => None,
    }
}

// What stands behind the record of a sending, marked or not, if it stands at the front. The room is for its bytes.
#[inline(always)]
fn behind_one<'a, C: Classify>(
    room: &mut Vec<u8>,
    classify: &C,
    frames: &Frames<'_>,
    row: &Row,
    end: u64,
    marked: bool,
    rest: &'a [u8],
) -> Result<Option<&'a [u8]>, NoMemory>
    requires { end < clock_end }
    ensures { IfOk result (λ o. MatchOption o ((more : List ℕ)
        → rest.now ≡ record_text (leaving (C.dressed classify.now) (frames_in frames.now) row.now end marked) ++ more → ⊥)
        (λ more. rest.now ≡ record_text (leaving (C.dressed classify.now) (frames_in frames.now) row.now end marked) ++ more.now)) }
{
    let frame = frames.frame(row.number);
    dress(room, classify, row.class, marked, frame)?;
    let head = record_head(end, frame.len() as u32, row.len);
    Ok(behind_both(rest, &head, room))
}

/// What stands behind what a row leaves, if that stands at the front. The room is for the bytes of a packet.
pub(crate) fn behind<'a, C: Classify>(
    room: &mut Vec<u8>,
    classify: &C,
    frames: &Frames<'_>,
    row: &Row,
    rest: &'a [u8],
) -> Result<Option<&'a [u8]>, NoMemory>
    ensures { IfOk result (λ o. MatchOption o (LeavesNoFront (C.dressed classify.now) (frames_in frames.now) row.now rest.now)
        (λ more. LeavesFront (C.dressed classify.now) (frames_in frames.now) row.now rest.now more.now)) }
{
    let Fate::Sent { end, .. } = row.fate else {
        return Ok(Some(rest));
    };
    if end >= CLOCK_END {
        return Ok(None);
    }
    let plain = behind_one(room, classify, frames, row, end, false, rest)?;
    if plain.is_some() {
        return Ok(plain);
    }
    if !frames.is_markable(row.number, row.class) {
        return Ok(None);
    }
    behind_one(room, classify, frames, row, end, true, rest)
}
