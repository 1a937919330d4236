// Another type of service in a frame.
ghost use Rattle.std.specs.Prelude.{◌≡◌, ◌≤◌, ◌<◌, ◌+◌, ◌^◌, IsTrue, length};
ghost use Rattle.packet_heads.specs.Flow.{has_bytes};
ghost use Rattle.packet_heads.specs.Retagged.{checksum_after, first_word_4, first_word_6, ones_sum, retagged, retagged_4, retagged_6, with_two};
ghost use Rattle.packet_heads.specs.Departing.{departing, departing_tos};

use crate::heads::{FlowHeads, flow, packet_place, tos, two_at};

/// Gives a frame the type of service, or traffic class, `tos`. A frame whose flow is `Other`, or that has it already, stays
/// as it is. In IPv4 the header's checksum follows; whether it was right is not looked at, and one that was wrong stays wrong.
/// All other bytes stay. Constant time; does not allocate. See RFC 2474, RFC 3168 and RFC 1624.
pub fn retag(frame: &mut [u8], tos: u8)
    ensures value { frame.new ≡ retagged frame.old tos }
    ensures long { length frame.new ≡ length frame.old }
{
    let place = packet_place(frame);
    match flow(frame) {
        FlowHeads::V4 { tos: old, .. } if old != tos => retag_4(frame, place, tos),
        FlowHeads::V6 { tos: old, .. } if old != tos => retag_6(frame, place, tos),
        _ => {}
    }
}

// The same of a packet of IPv4 that begins at a place.
fn retag_4(frame: &mut [u8], place: usize, tos: u8)
    requires place { place ≤ 22 }
    requires head { IsTrue (has_bytes 20 frame.old place) }
    ensures { frame.new ≡ retagged_4 frame.old place tos }
{
    let word = two_at(frame, place);
    let changed = first_word_4(word, tos);
    let checksum = checksum_after(two_at(frame, place + 10), word, changed);
    set_two(frame, place, changed);
    set_two(frame, place + 10, checksum);
}

// The same of a packet of IPv6.
fn retag_6(frame: &mut [u8], place: usize, tos: u8)
    requires place { place ≤ 22 }
    requires head { IsTrue (has_bytes 40 frame.old place) }
    ensures { frame.new ≡ retagged_6 frame.old place tos }
{
    let word = two_at(frame, place);
    set_two(frame, place, first_word_6(word, tos));
}

// The first word of a header of IPv4 with another type of service.
fn first_word_4(word: u16, tos: u8) -> u16
    ensures { result ≡ first_word_4 word tos }
{
    word / 256 * 256 + u16::from(tos)
}

// The first word of a header of IPv6 with another traffic class.
fn first_word_6(word: u16, tos: u8) -> u16
    ensures { result ≡ first_word_6 word tos }
{
    word / 4096 * 4096 + u16::from(tos) * 16 + word % 16
}

// The sum of two words in ones' complement.
fn ones_sum(a: u16, b: u16) -> u16
    ensures { result ≡ ones_sum a b }
{
    let sum = u32::from(a) + u32::from(b);
    if sum <= 0xffff {
        sum as u16
    } else {
        (sum - 0xffff) as u16
    }
}

// A checksum where one word of what it covers becomes another.
fn checksum_after(checksum: u16, word: u16, changed: u16) -> u16
    ensures { result ≡ checksum_after checksum word changed }
{
    0xffff - ones_sum(ones_sum(0xffff - checksum, 0xffff - word), changed)
}

// Writes a number into two bytes.
fn set_two(bytes: &mut [u8], at: usize, word: u16)
    requires { at + 1 < length bytes.old }
    ensures { bytes.new ≡ with_two bytes.old at word }
{
    bytes[at] = (word / 256) as u8;
    bytes[at + 1] = (word % 256) as u8;
}

/// Leaves a frame as its packet departs: with the code point cleared if `clear`, as in a class with `cleardscp`, and then,
/// if `marked`, with both bits of explicit congestion notification set. A frame whose flow is `Other` stays as it is, and
/// each keeps its length. Constant time; does not allocate. See RFC 2474 and RFC 3168.
pub fn dress(frame: &mut [u8], clear: bool, marked: bool)
    ensures value { frame.new ≡ departing clear marked frame.old }
    ensures long { length frame.new ≡ length frame.old }
{
    if !clear && !marked {
        return;
    }
    retag(frame, departing_tos(clear, marked, tos(frame)));
}

// The type of service with which a packet departs.
fn departing_tos(clear: bool, marked: bool, tos: u8) -> u8
    ensures { result ≡ departing_tos clear marked tos }
{
    let cleared = if clear { tos % 4 } else { tos };
    if marked { cleared / 4 * 4 + 3 } else { cleared }
}
