// The numbers in a block, in the order of bytes of its section.
ghost use Rattle.std.specs.Prelude.{◌≡◌, ◌≤◌, ◌+◌, length};
ghost use Rattle.pcapng_model.specs.Number.{number};

use byteorder::{BigEndian, ByteOrder, LittleEndian};

// The number in two bytes.
#[inline(always)]
pub fn two(big: bool, bytes: &[u8], at: usize) -> u16
    requires { at + 2 ≤ length bytes.now }
    ensures { result ≡ number big 2 bytes.now at }
{
    if big {
        BigEndian::read_u16(&bytes[at..])
    } else {
        LittleEndian::read_u16(&bytes[at..])
    }
}

// The number in four bytes.
#[inline(always)]
pub fn four(big: bool, bytes: &[u8], at: usize) -> u32
    requires { at + 4 ≤ length bytes.now }
    ensures { result ≡ number big 4 bytes.now at }
{
    if big {
        BigEndian::read_u32(&bytes[at..])
    } else {
        LittleEndian::read_u32(&bytes[at..])
    }
}

// The number in eight bytes.
#[inline(always)]
pub fn eight(big: bool, bytes: &[u8], at: usize) -> u64
    requires { at + 8 ≤ length bytes.now }
    ensures { result ≡ number big 8 bytes.now at }
{
    if big {
        BigEndian::read_u64(&bytes[at..])
    } else {
        LittleEndian::read_u64(&bytes[at..])
    }
}
