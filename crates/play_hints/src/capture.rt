// What is wrong with a capture.

use crate::line::line;
use capture_model::{Damage, DamageKind};
use pcapng_model::NgKind;
use run_outcomes::CaptureStop;
use std::alloc::{AllocError, Global};

// What a pcapng file begins with.
const PCAPNG: &[u8] = b"\n\r\r\n";

const LONG_PCAPNG: &str =
    "@: more than 4000000 records, or 2^30 bytes: nothing was created; cut it: editcap -F nsecpcap -c 4000000 @ part.pcap";

const LONG: &str =
    "@: more than 4000000 records, or 2^30 bytes: all before was decided; cut it: editcap -F nsecpcap -c 4000000 @ part.pcap";

const LATE: &str =
    "@: a packet would end at 2^32 seconds or later: all before was decided; set the stamps back: editcap -F nsecpcap -t -SECONDS @ earlier.pcap";

const MODIFIED: &str = "@: modified libpcap: convert it first: editcap -F nsecpcap @ out.pcap";

// What other files begin with, and what to say of them. gzip is RFC 1952, zstd RFC 8878; the last two are the capture format of some
// old systems, which libpcap reads too.
const FORMATS: [(&[u8], &str); 7] = [
    (&[0x1f, 0x8b], "@: gzip: unpack it first: gzip -dk @"),
    (
        &[0x28, 0xb5, 0x2f, 0xfd],
        "@: zstd: unpack it first: zstd -dk @",
    ),
    (
        &[0xfd, b'7', b'z', b'X'],
        "@: xz: unpack it first: xz -dk @",
    ),
    (b"BZh", "@: bzip2: unpack it first: bzip2 -dk @"),
    (
        &[0x04, 0x22, 0x4d, 0x18],
        "@: lz4: unpack it first: lz4 -dk @",
    ),
    (&[0x34, 0xcd, 0xb2, 0xa1], MODIFIED),
    (&[0xa1, 0xb2, 0xcd, 0x34], MODIFIED),
];

// What to say of a file that begins with no magic of a capture.
fn magic_form(head: &[u8]) -> &'static str {
    for (magic, form) in &FORMATS {
        if head.starts_with(magic) {
            return *form;
        }
    }
    "@: no capture, it begins with \"%\": give a file that tcpdump -w wrote"
}

// The number of 16 bits at a place of a head, of which the first byte says whether the greatest byte of a number comes first.
fn number_at(head: &[u8], at: usize) -> u64 {
    match head.get(at..) {
        Some([high, low, ..]) if head.starts_with(&[0xa1]) => u64::from(u16::from_be_bytes([
            *high, *low,
        ])),
        Some([low, high, ..]) => u64::from(u16::from_le_bytes([*low, *high])),
        _ => 0,
    }
}

// What to say of a capture of another link type. The numbers are those of the tcpdump group's list.
fn link_form(link: u64) -> &'static str {
    match link {
        0 | 108 => "@: link type #, BSD loopback: need 1, Ethernet: use altqwork convert",
        9 | 50 => "@: link type #, PPP: need 1, Ethernet: use altqwork convert",
        12 | 14 | 101 | 228 | 229 =>
            "@: link type #, raw IP: need 1, Ethernet: use altqwork convert",
        105 | 127 => "@: link type #, 802.11: need 1, Ethernet: capture on one Ethernet interface",
        113 => "@: link type #, Linux cooked: need 1, Ethernet: use altqwork convert",
        276 => "@: link type #, Linux cooked v2: need 1, Ethernet: use altqwork convert",
        _ => "@: link type #, no Ethernet: need 1, Ethernet: capture on one Ethernet interface",
    }
}

// What to say of a damage, and its numbers.
fn damage_form(head: &[u8], damage: Damage) -> (&'static str, [u64; 2]) {
    let place = damage.place;
    match damage.kind {
        DamageKind::ShortHead => (
            "@: # bytes, a capture has 24 at least: was it written to its end?",
            [place, 0],
        ),
        DamageKind::BadMagic => (magic_form(head), [0, 0]),
        DamageKind::BadVersion => (
            "@: version #.#: need 2.4: editcap -F nsecpcap @ out.pcap",
            [number_at(head, 4), number_at(head, 6)],
        ),
        DamageKind::BadLink => {
            let link = number_at(head, if head.starts_with(&[0xa1]) { 22 } else { 20 });
            (link_form(link), [link, 0])
        }
        DamageKind::ShortRecord => (
            "@: the record at byte # is cut: all before it was decided; statistics stay empty",
            [place, 0],
        ),
        DamageKind::EmptyRecord => (
            "@: the record at byte # has no length: all before it was decided; statistics stay empty",
            [place, 0],
        ),
        DamageKind::LongRecord => (
            "@: the record at byte # is longer than 262144 bytes: all before it was decided; is the file damaged?",
            [place, 0],
        ),
    }
}

// What is wrong with a block of a pcapng file, of which nothing was played, and what to do.
fn block_fault(kind: NgKind) -> &'static str {
    match kind {
        NgKind::BadMagic => "tells no order of bytes: is the file damaged?",
        NgKind::BadVersion => "is of another version than 1: convert it first: editcap -F nsecpcap",
        NgKind::BadLink => "is a packet of no Ethernet: use altqwork convert",
        NgKind::EmptyRecord => "is a packet without length: is the file damaged?",
        NgKind::LongRecord => "is a packet of more than 262144 bytes: is the file damaged?",
        NgKind::ShortBlock => "is cut: was it written to its end?",
        NgKind::UnknownInterface =>
            "is a packet of an interface that is not there: is the file damaged?",
        NgKind::BadStamp => "is a packet before 1970 or after 2106: shift it: editcap -t SECONDS",
        NgKind::BadResolution =>
            "is an interface of a finer clock than 10^-18 or 2^-63 s: convert it first: editcap -F nsecpcap",
        NgKind::OldPacket =>
            "is an obsolete or a simple packet: convert it first: editcap -F nsecpcap",
        NgKind::BadBlock => "is malformed: is the file damaged?",
    }
}

/// What to say of a capture with this fault, or whose play ends so, by its first bytes, of which 24 tell all. `Err` comes only where there is
/// no memory.
pub fn capture_hint(
    alloc: Global,
    name: &str,
    head: &[u8],
    stop: CaptureStop,
) -> Result<String, AllocError> {
    match stop {
        CaptureStop::Damage(damage) => {
            let (form, numbers) = damage_form(head, damage);
            line(alloc, form, name, head.get(..8).unwrap_or(head), &numbers)
        }
        CaptureStop::Block(block) => {
            let fault = block_fault(block.kind).as_bytes();
            line(
                alloc,
                "@: the block at byte # %",
                name,
                fault,
                &[block.place],
            )
        }
        CaptureStop::TooLong if head.starts_with(PCAPNG) => line(
            alloc,
            LONG_PCAPNG,
            name,
            b"",
            &[],
        ),
        CaptureStop::TooLong => line(alloc, LONG, name, b"", &[]),
        CaptureStop::Late => line(alloc, LATE, name, b"", &[]),
    }
}
