// The records of a capture in little-endian nanoseconds, each in the words of an arrival.

use crate::texts::{add_hex, add_text};
use byteorder::{ByteOrder, LittleEndian};

// A record, and the bytes behind it.
#[derive(Clone, Copy)]
struct Record<'a> {
    at: u64,
    length: u32,
    frame: &'a [u8],
    behind: &'a [u8],
}

// The first record of the bytes behind a capture's head, or of some of them.
fn first_of(bytes: &[u8]) -> Option<Record<'_>> {
    let (head, behind) = bytes.split_first_chunk::<16>()?;
    let second = LittleEndian::read_u32(&head[..4]);
    let nanosecond = LittleEndian::read_u32(&head[4..8]);
    let captured = LittleEndian::read_u32(&head[8..12]) as usize;
    let (frame, behind) = behind.split_at_checked(captured).unwrap_or((behind, &[]));
    Some(Record {
        at: u64::from(second) * 1_000_000_000 + u64::from(nanosecond),
        length: LittleEndian::read_u32(&head[12..]),
        frame,
        behind,
    })
}

/// Adds the head of a capture and its first records.
pub fn add_records(answer: &mut String, bytes: Option<&[u8]>, most: u64) -> Option<()> {
    let Some(bytes) = bytes else {
        return add_text(answer, None);
    };
    let (head, mut rest) = bytes.split_at_checked(24).unwrap_or((bytes, &[]));
    answer.push_str("bytes ").ok()?;
    add_hex(answer, head)?;
    let mut before: &[u8] = &[];
    for _ in 0..most {
        let Some(record) = first_of(rest) else {
            break;
        };
        add_record(answer, record, before)?;
        before = record.frame;
        rest = record.behind;
    }
    let more = rest.len();
    if more == 0 {
        return Some(());
    }
    write!(answer, "\n{more} bytes more").ok()
}

// Adds a record, whose frame is told as `same` where it is that of the record before.
fn add_record(answer: &mut String, record: Record, before: &[u8]) -> Option<()> {
    let (at, length) = (record.at, record.length);
    write!(answer, "\n{at} {length} hex ").ok()?;
    if record.frame == before {
        return answer.push_str("same").ok();
    }
    add_hex(answer, record.frame)
}
