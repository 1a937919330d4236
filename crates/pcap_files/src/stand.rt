// The tests of a record that need no more than its header.
ghost use Rattle.std.specs.Prelude.{◌≡◌, ◌+◌, ◌≤◌, ◌<◌, ◌^◌, ℕ, max, length};
ghost use Rattle.capture_model.specs.Capture.{stamp};
ghost use Rattle.pcap_files.specs.Forms.{form};
ghost use Rattle.pcap_files.specs.Stand.{stand_at};

use crate::form::Head;
use crate::numbers::word;
use crate::progress::Progress;
use capture_model::DamageKind;

// Bytes of a record's header.
pub const RECORD_HEAD: usize = 16;

const MOST_RECORDS: u32 = 4_000_000;

const MOST_BYTES: u32 = 1 << 30;

const LONGEST: u32 = 262_144;

/// What the bytes at a place tell of the record there: its stamp in nanoseconds and its two lengths in bytes, or the first
/// test that its header fails.
pub enum Stand {
    End,
    Limit,
    Damaged(DamageKind),
    Headed {
        stamp: u64,
        captured: u32,
        original: u32,
    },
}

// The stamp of the record that begins these bytes, in nanoseconds. A fraction of a second or more is carried.
#[inline(always)]
fn stamp(head: Head, bytes: &[u8]) -> u64
    requires { 8 ≤ length bytes.now }
    ensures value { result ≡ stamp (form head) bytes.now 0 }
    ensures early { result < 2 ^ 62 }
{
    let unit = if head.nanos { 1 } else { 1000 };
    u64::from(word(head.big, bytes, 0)) * 1_000_000_000 + u64::from(word(head.big, bytes, 4)) * unit
}

/// What the bytes at the next record's place tell of it: `End` where there are none, `Limit` behind 4,000,000 records or where the
/// record would end past 2^30 bytes, `Damaged` where its header fails a test; `ShortRecord` of these tells that fewer than 16 bytes
/// stand there. Whether all that `Headed` announces stands there is not asked. Constant time (pcap-savefile(5)).
#[inline(always)]
pub fn stand_at(head: Head, progress: Progress, ahead: &[u8]) -> Stand
    ensures value { result ≡ stand_at (form head) progress.count progress.place ahead.now }
    ensures none { result ≡ Stand.End → length ahead.now ≡ 0 }
    ensures fits { (stamp captured original : ℕ) → result ≡ Stand.Headed stamp captured original →
        (progress.count < 4000000) × (progress.place + 16 + captured ≤ 2 ^ 30) × (16 ≤ length ahead.now) }
    ensures headed { (stamp captured original : ℕ) → result ≡ Stand.Headed stamp captured original →
        (stamp < 2 ^ 62) × (max captured original ≤ 262144) × (1 ≤ max captured original) }
{
    if ahead.is_empty() {
        return Stand::End;
    }
    if progress.count == MOST_RECORDS {
        return Stand::Limit;
    }
    if ahead.len() < RECORD_HEAD {
        return Stand::Damaged(DamageKind::ShortRecord);
    }
    let captured = word(head.big, ahead, 8);
    let original = word(head.big, ahead, 12);
    if captured > LONGEST || original > LONGEST {
        return Stand::Damaged(DamageKind::LongRecord);
    }
    if captured == 0 && original == 0 {
        return Stand::Damaged(DamageKind::EmptyRecord);
    }
    if progress.place + 16 + captured > MOST_BYTES {
        return Stand::Limit;
    }
    Stand::Headed {
        stamp: stamp(head, ahead),
        captured,
        original,
    }
}
