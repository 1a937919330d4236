// The options of an interface description.
ghost use Rattle.std.specs.Prelude.{◌≡◌, ◌≤◌, ◌<◌, ◌^◌, option_map, drop, length};
ghost use Rattle.pcapng_model.specs.Interface.{options, set_by};
ghost use Rattle.pcapng_model.specs.Number.{padded};
ghost use Rattle.pcapng_files.specs.Views.{settings};

use crate::numbers::{eight, two};

const RESOLUTION: u16 = 9;

const OFFSET: u16 = 14;

// The values of the two options that are looked at: the resolution, and the bits of the offset in seconds.
#[derive(Clone, Copy)]
pub struct Settings {
    pub resolution: u8,
    pub offset: u64,
}

// The settings after an option of this code and length, the value first in `value`; None where its code forbids the length.
fn set_by(big: bool, code: u16, len: u16, value: &[u8], old: Settings) -> Option<Settings>
    requires { len ≤ length value.now }
    ensures { option_map settings result ≡ set_by big code len value.now (settings old) }
{
    if code == RESOLUTION {
        if len != 1 {
            return None;
        }
        return Some(Settings {
            resolution: value[0],
            offset: old.offset,
        });
    }
    if code == OFFSET {
        if len != 8 {
            return None;
        }
        return Some(Settings {
            resolution: old.resolution,
            offset: eight(big, value, 0),
        });
    }
    Some(old)
}

// The bytes behind the first `count`.
#[inline(always)]
fn behind(bytes: &[u8], count: usize) -> &[u8]
    requires { count ≤ length bytes.now }
    ensures { result.now ≡ drop count bytes.now }
{
    &bytes[count..]
}

// The settings after all options; with none of them microseconds and no offset. Of two options of one code the later holds. None where
// one ends past the bytes, or its code forbids its length. The cost is linear in the bytes.
pub fn options(big: bool, bytes: &[u8]) -> Option<Settings>
    ensures { option_map settings result ≡ options big bytes.now }
{
    let mut set = Settings {
        resolution: 6,
        offset: 0,
    };
    let mut rest = bytes;
    while rest.len() >= 4 {
        let code = two(big, rest, 0);
        if code == 0 {
            return Some(set);
        }
        let len = two(big, rest, 2);
        let whole = 4 + padded(len as usize);
        if rest.len() < whole {
            return None;
        }
        set = match set_by(big, code, len, behind(rest, 4), set) {
            Some(next) => next,
            None => return None,
        };
        rest = behind(rest, whole);
    }
    Some(set)
}

// A length with its padding to a multiple of 4.
#[inline(always)]
pub fn padded(len: usize) -> usize
    requires { len < 2 ^ 33 }
    ensures value { result ≡ padded len }
    ensures least { len ≤ result }
{
    (len + 3) / 4 * 4
}
