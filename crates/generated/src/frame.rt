// The heads of a generated frame.
ghost use Rattle.std.specs.Prelude.{◌≡◌};
ghost use Rattle.generated.specs.Packets.{frame_by, len_by, tos_of};

use byteorder::{BigEndian, ByteOrder};

/// How many bytes of each frame are captured: the heads of Ethernet, IPv4 and UDP.
pub(crate) const CAPTURED: usize = 42;

/// The heads where length, type of service and ports are 0: Ethernet, IPv4 from 10.0.0.1 to 10.0.0.2 over 64 links at most, UDP.
const BLANK: [u8; CAPTURED] = [
    2, 0, 0, 0, 0, 2, 2, 0, 0, 0, 0, 1, 8, 0, 0x45, 0, 0, 0, 0, 0, 0, 0, 64, 17, 0, 0, 10, 0, 0, 1,
    10, 0, 0, 2, 0, 0, 0, 0, 0, 0, 0, 0,
];

// The type of service of a number below 4: AF11, AF12, AF13 or none.
fn tos(choice: u32) -> u8
    ensures { result ≡ tos_of choice }
{
    match choice {
        0 => 0x28,
        1 => 0x30,
        2 => 0x38,
        _ => 0,
    }
}

/// The length of the packet of the second word b.
pub(crate) fn len(b: u32) -> u32
    ensures { result ≡ len_by b }
{
    64 + b % 1437
}

/// The captured heads of the packet of the words a and b.
pub(crate) fn frame(a: u32, b: u32) -> [u8; CAPTURED]
    ensures { result ≡ frame_by a b }
{
    let len = len(b);
    let mut frame = BLANK;
    frame[15] = tos((a >> 16) % 4);
    BigEndian::write_u16(&mut frame[16..], (len - 14) as u16);
    BigEndian::write_u16(&mut frame[34..], (1024 + (b >> 16) % 4) as u16);
    BigEndian::write_u16(&mut frame[36..], (5000 + (a >> 24) % 8) as u16);
    BigEndian::write_u16(&mut frame[38..], (len - 34) as u16);
    frame
}
