// The capture of a case.

use crate::packet::Packet;
use crate::words::number;
use std::alloc::Global;

/// The form of a capture: the order of its bytes, and the unit of its stamps.
#[derive(Clone, Copy)]
pub struct Form {
    pub big: bool,
    pub micro: bool,
}

/// Begins a capture anew with the header of a form.
pub fn begin(capture: &mut Vec<u8>, form: Form) -> Option<()> {
    let magic = if form.micro { 0xa1b2_c3d4 } else { 0xa1b2_3c4d };
    let version = if form.big { 0x0002_0004 } else { 0x0004_0002 };
    capture.clear();
    push(capture, form, &[magic, version, 0, 0, 262_144, 1])
}

// Adds numbers in the order of a form.
fn push(capture: &mut Vec<u8>, form: Form, numbers: &[u32]) -> Option<()> {
    for number in numbers {
        let bytes = if form.big {
            number.to_be_bytes()
        } else {
            number.to_le_bytes()
        };
        capture.extend_from_slice(&bytes).ok()?;
    }
    Some(())
}

/// Adds the records of the packet that the words of a line say.
pub fn arrive(alloc: Global, capture: &mut Vec<u8>, form: Form, words: &[&str]) -> Option<()> {
    let [at, len, heads @ ..] = words else {
        return None;
    };
    let stamp = stamp_of(form, number(at)?)?;
    let packet = Packet::read(len, heads)?;
    let frame = packet.frame(alloc)?;
    push_records(capture, form, stamp, &frame, [packet.len, packet.times])
}

// The stamp of a moment in the unit of a form.
fn stamp_of(form: Form, at: u64) -> Option<[u32; 2]> {
    let nanosecond = (at % 1_000_000_000) as u32;
    let fraction = nanosecond / if form.micro { 1_000 } else { 1 };
    Some([u32::try_from(at / 1_000_000_000).ok()?, fraction])
}

// Adds a record of a frame of this length on the link as often as is said.
fn push_records(
    capture: &mut Vec<u8>,
    form: Form,
    [second, fraction]: [u32; 2],
    frame: &[u8],
    [len, times]: [u32; 2],
) -> Option<()> {
    let captured = u32::try_from(frame.len()).ok()?;
    let head = [second, fraction, captured, len];
    for _ in 0..times {
        push(capture, form, &head)?;
        capture.extend_from_slice(frame).ok()?;
    }
    Some(())
}
