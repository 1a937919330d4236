// The record of a packet, put into the bytes of the file that holds the packet.
ghost use Rattle.std.specs.Prelude.{◌≡◌, ◌≤◌, ◌+◌, ◌++◌, ℕ, IfSome, drop, length, take};
ghost use Rattle.std.specs.List.{copy_within};
ghost use Rattle.capture_model.specs.Written.{FitsCapture, record_text, record_texts};
ghost use Rattle.pcapng_files.specs.Views.{packet, records_of, size_of};

use crate::packet::{HEAD, Packet};
use pcap_files::record_head;

// Moves `count` bytes from `from` down to `to`; the two parts do not overlap.
fn move_apart(bytes: &mut [u8], from: usize, count: usize, to: usize)
    requires within { from + count ≤ length bytes.old }
    requires apart { to + count ≤ from }
    ensures { bytes.new ≡ copy_within bytes.old from (from + count) to }
{
    let (front, back) = bytes.split_at_mut(from);
    front[to..to + count].copy_from_slice(&back[..count]);
}

// Moves `count` bytes from `from` down to `to`: in one copy, but for a file's first packets, where the parts overlap.
fn move_bytes(bytes: &mut [u8], from: usize, count: usize, to: usize)
    requires within { from + count ≤ length bytes.old }
    requires room { to + count ≤ length bytes.old }
    ensures { bytes.new ≡ copy_within bytes.old from (from + count) to }
{
    if to + count <= from {
        move_apart(bytes, from, count, to);
        return;
    }
    bytes.copy_within(from..from + count, to);
}

// Puts the record of a packet at `at`; the packet's body stands at `body`. The captured bytes are moved first, because the record's
// head may overwrite some of them.
fn put_record(bytes: &mut [u8], at: usize, body: usize, found: &Packet)
    requires within { FitsCapture (packet (drop body bytes.old) found.now) }
    requires here { body + 20 + found.now.captured ≤ length bytes.old }
    requires room { at + 16 + found.now.captured ≤ length bytes.old }
    ensures put { take (at + 16 + found.now.captured) bytes.new ≡ take at bytes.old ++ record_text (packet (drop body bytes.old) found.now) }
    ensures rest { drop (at + 16 + found.now.captured) bytes.new ≡ drop (at + 16 + found.now.captured) bytes.old }
    ensures size { length bytes.new ≡ length bytes.old }
{
    move_bytes(bytes, body + HEAD, found.captured as usize, at + 16);
    let head = record_head(found.stamp, found.captured, found.original);
    bytes[at..at + 16].copy_from_slice(&head);
}

// Puts the record of a packet at `at`, if there is a packet, and gives the end of what is written then.
pub fn put_found(bytes: &mut [u8], at: usize, body: usize, found: &Option<Packet>) -> usize
    requires within { IfSome found.now (λ p. FitsCapture (packet (drop body bytes.old) p)) }
    requires here { IfSome found.now (λ p. body + 20 + p.captured ≤ length bytes.old) }
    requires room { IfSome found.now (λ p. at + 16 + p.captured ≤ length bytes.old) }
    ensures end { result ≡ at + size_of found.now }
    ensures put { take result bytes.new ≡ take at bytes.old ++ record_texts (records_of (drop body bytes.old) found.now) }
    ensures rest { (n : ℕ) → IfSome found.now (λ p. at + 16 + p.captured ≤ n) → drop n bytes.new ≡ drop n bytes.old }
    ensures size { length bytes.new ≡ length bytes.old }
{
    match found {
        Some(packet) => {
            put_record(bytes, at, body, packet);
            at + 16 + packet.captured as usize
        }
        None => at,
    }
}
