// The header of a capture.
ghost use Rattle.std.specs.Prelude.{◌≡◌, ◌≤◌, IfOk, OnOk, IfErr, option_map, length};
ghost use Rattle.capture_model.specs.Capture.{header, Formed, Unformed, form_of, damage};
ghost use Rattle.pcap_files.specs.Forms.{form};

use crate::numbers::{half, word};
use capture_model::{Damage, DamageKind};

/// The form of a capture: whether its numbers are big-endian, and whether the fractions of its stamps count nanoseconds, and
/// not microseconds.
#[derive(Clone, Copy)]
pub struct Head {
    pub big: bool,
    pub nanos: bool,
}

impl Head {
    /// The form that a file's bytes begin with. The error is the first test of the header that the bytes fail: fewer than 24
    /// bytes, no magic number of the classic format, another version than 2.4, or another link type than Ethernet in the
    /// low 16 bits; nothing else is looked at. Constant time.
    pub fn read(bytes: &[u8]) -> Result<Head, Damage>
        ensures ok { IfOk result (λ answer. header bytes.now ≡ Formed (form answer)) }
        ensures long { OnOk result (24 ≤ length bytes.now) }
        ensures err { IfErr result (λ damage. header bytes.now ≡ Unformed damage) }
    {
        if bytes.len() < 24 {
            return Err(damage_at(bytes.len() as u64, DamageKind::ShortHead));
        }
        let Some(head) = form_by(word(true, bytes, 0)) else {
            return Err(damage_at(0, DamageKind::BadMagic));
        };
        if half(head.big, bytes, 4) != 2 || half(head.big, bytes, 6) != 4 {
            return Err(damage_at(4, DamageKind::BadVersion));
        }
        if word(head.big, bytes, 20) % 65_536 != 1 {
            return Err(damage_at(20, DamageKind::BadLink));
        }
        Ok(head)
    }
}

// The form that a magic number names, read as big-endian.
fn form_by(magic: u32) -> Option<Head>
    ensures { option_map form result ≡ form_of magic }
{
    match magic {
        0xa1b2_c3d4 => Some(Head {
            big: true,
            nanos: false,
        }),
        0xd4c3_b2a1 => Some(Head {
            big: false,
            nanos: false,
        }),
        0xa1b2_3c4d => Some(Head {
            big: true,
            nanos: true,
        }),
        0x4d3c_b2a1 => Some(Head {
            big: false,
            nanos: true,
        }),
        _ => None,
    }
}

// A fault of this kind at this place.
pub fn damage_at(place: u64, kind: DamageKind) -> Damage
    ensures { result ≡ damage place kind }
{
    Damage { place, kind }
}
