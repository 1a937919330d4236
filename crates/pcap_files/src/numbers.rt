// The numbers in a capture, in either order of bytes.
ghost use Rattle.std.specs.Prelude.{◌≡◌, ◌≤◌, ◌+◌, length};
ghost use Rattle.capture_model.specs.Capture.{word, half};

use byteorder::{BigEndian, ByteOrder, LittleEndian};

// The number in four bytes.
#[tactic(auto, using(crate::proofs::WordLemmas::big_word, crate::proofs::WordLemmas::little_word))]
#[inline(always)]
pub fn word(big: bool, bytes: &[u8], at: usize) -> u32
    requires { at + 4 ≤ length bytes.now }
    ensures { result ≡ word big bytes.now at }
{
    if big {
        BigEndian::read_u32(&bytes[at..])
    } else {
        LittleEndian::read_u32(&bytes[at..])
    }
}

// The number in two bytes.
#[tactic(auto, using(crate::proofs::WordLemmas::big_half, crate::proofs::WordLemmas::little_half))]
pub fn half(big: bool, bytes: &[u8], at: usize) -> u16
    requires { at + 2 ≤ length bytes.now }
    ensures { result ≡ half big bytes.now at }
{
    if big {
        BigEndian::read_u16(&bytes[at..])
    } else {
        LittleEndian::read_u16(&bytes[at..])
    }
}
