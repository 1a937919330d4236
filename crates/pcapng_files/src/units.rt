// Units of a second and offsets, of which stamps are made.
ghost use Rattle.std.specs.Prelude.{◌≡◌, ◌≤◌, ◌<◌, ◌*◌, ◌/◌, ◌^◌, IfSome};
ghost use Rattle.pcapng_model.specs.Interface.{offset_of, units_of};
ghost use Rattle.pcapng_files.specs.Views.{offset, seconds_by};

// Nanoseconds in a second.
pub const NANOS: u64 = 1_000_000_000;

// What is added to every stamp of an interface, in whole seconds.
#[derive(Clone, Copy)]
pub enum Offset {
    Later(u64),
    Earlier(u64),
}

impl Offset {
    // These seconds with the offset added; None before the epoch, or from 2^32 on.
    pub fn moved(self, seconds: u64) -> Option<u64>
        ensures value { result ≡ seconds_by (offset self) seconds }
        ensures early { IfSome result (λ moved. moved < 2 ^ 32) }
    {
        let moved = match self {
            Offset::Later(more) => seconds.checked_add(more),
            Offset::Earlier(less) => seconds.checked_sub(less),
        };
        match moved {
            Some(moved) if moved < 1 << 32 => Some(moved),
            _ => None,
        }
    }
}

// The nanoseconds of `part` units, of which `units` make a second, rounded down.
pub fn fraction(part: u64, units: u64) -> u64
    requires { part < units }
    ensures value { result ≡ part * 10 ^ 9 / units }
    ensures part { result < 10 ^ 9 }
{
    match part.checked_mul(NANOS) {
        Some(nanos) => nanos / units,
        None => (u128::from(part) * u128::from(NANOS) / u128::from(units)) as u64,
    }
}

// The offset that 64 bits hold as a signed number.
pub fn offset_of(bits: u64) -> Offset
    ensures { offset result ≡ offset_of bits }
{
    if bits < 1 << 63 {
        Offset::Later(bits)
    } else {
        Offset::Earlier(u64::MAX - bits + 1)
    }
}

// How many units make a second at a resolution; None past the finest, 10^18 or 2^63 of them.
pub fn units_of(resolution: u8) -> Option<u64>
    ensures value { result ≡ units_of resolution }
    ensures some { IfSome result (λ units. 1 ≤ units) }
{
    if resolution < 128 {
        if resolution > 18 {
            return None;
        }
        return Some(10u64.pow(resolution as u32));
    }
    if resolution - 128 > 63 {
        return None;
    }
    Some(1 << (resolution - 128))
}
