// The header of a record.
ghost use Rattle.std.specs.Prelude.{◌≡◌, ◌+◌, ◌≤◌, ◌<◌, ◌^◌, IfSome, length};
ghost use Rattle.capture_model.specs.Capture.{stamp, word};
ghost use Rattle.pcap_files.specs.Forms.{form};
ghost use Rattle.marked_files.specs.Heads.{headed};

use byteorder::{BigEndian, ByteOrder, LittleEndian};
use pcap_files::Head;

// Bytes of a record's header.
pub const RECORD_HEAD: usize = 16;

const MOST_RECORDS: u32 = 4_000_000;

const MOST_BYTES: u32 = 1 << 30;

const LONGEST: u32 = 262_144;

// What a record's header says: a stamp in nanoseconds and two lengths in bytes.
#[derive(Clone, Copy)]
pub struct RecordHead {
    pub stamp: u64,
    pub captured: u32,
    pub original: u32,
}

// The number in four bytes.
#[tactic(auto, using(pcap_files::proofs::WordLemmas::big_word, pcap_files::proofs::WordLemmas::little_word))]
fn word(big: bool, bytes: &[u8], at: usize) -> u32
    requires { at + 4 ≤ length bytes.now }
    ensures { result ≡ word big bytes.now at }
{
    if big {
        BigEndian::read_u32(&bytes[at..])
    } else {
        LittleEndian::read_u32(&bytes[at..])
    }
}

// The stamp of the record that begins these bytes, in nanoseconds.
fn stamp(head: Head, bytes: &[u8]) -> u64
    requires { 8 ≤ length bytes.now }
    ensures value { result ≡ stamp (form head) bytes.now 0 }
    ensures early { result < 2 ^ 62 }
{
    let unit = if head.nanos { 1 } else { 1000 };
    u64::from(word(head.big, bytes, 0)) * 1_000_000_000 + u64::from(word(head.big, bytes, 4)) * unit
}

// The header that these bytes begin with, after `count` records, where the format allows a record here.
pub fn headed(head: Head, count: u32, place: u32, bytes: &[u8]) -> Option<RecordHead>
    requires counted { count ≤ 4000000 }
    requires placed { place ≤ 2 ^ 30 }
    ensures value { result ≡ headed (form head) count place bytes.now }
    ensures fits { IfSome result (λ r. (count < 4000000) × (place + 16 + r.captured ≤ 2 ^ 30)) }
    ensures short { IfSome result (λ r. r.captured ≤ 262144) }
{
    if bytes.len() < RECORD_HEAD {
        return None;
    }
    if count == MOST_RECORDS {
        return None;
    }
    let captured = word(head.big, bytes, 8);
    let original = word(head.big, bytes, 12);
    if captured > LONGEST || original > LONGEST {
        return None;
    }
    if captured == 0 && original == 0 {
        return None;
    }
    if place + 16 + captured > MOST_BYTES {
        return None;
    }
    Some(RecordHead {
        stamp: stamp(head, bytes),
        captured,
        original,
    })
}
