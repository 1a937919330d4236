// The headers that a capture is written with.
ghost use Rattle.std.specs.Prelude.{◌≡◌, ◌≤◌, ◌<◌, ◌*◌, ◌^◌, ◌++◌, drop, length};
ghost use Rattle.capture_model.specs.Header.{capture_header, record_header};

use byteorder::{ByteOrder, LittleEndian};

/// The header of a little-endian nanosecond capture of Ethernet frames with a snap length of 262,144 bytes.
pub fn head_bytes() -> [u8; 24]
    ensures { result ≡ capture_header }
{
    [
        0x4d, 0x3c, 0xb2, 0xa1, 2, 0, 4, 0, 0, 0, 0, 0, 0, 0, 0, 0, 0, 0, 4, 0, 1, 0, 0, 0,
    ]
}

/// The header of a record in such a capture, stamped with `end` nanoseconds, below 2^32 seconds: `captured` bytes stand behind
/// it, of a packet of `len` bytes.
pub fn record_head(end: u64, captured: u32, len: u32) -> [u8; 16]
    requires { end < 2 ^ 32 * 10 ^ 9 }
    ensures { result ≡ record_header end captured len }
{
    let mut head = [0; 16];
    put_record_head(&mut head, end, captured, len);
    head
}

/// Writes the same over the first 16 bytes. What stands behind them stays.
#[inline(always)]
pub fn put_record_head(head: &mut [u8], end: u64, captured: u32, len: u32)
    requires early { end < 2 ^ 32 * 10 ^ 9 }
    requires room { 16 ≤ length head.old }
    ensures { head.new ≡ record_header end captured len ++ drop 16 head.old }
{
    LittleEndian::write_u32(head, (end / 1_000_000_000) as u32);
    LittleEndian::write_u32(&mut head[4..], (end % 1_000_000_000) as u32);
    LittleEndian::write_u32(&mut head[8..], captured);
    LittleEndian::write_u32(&mut head[12..], len);
}
