// Amounts: a rate of R bits per second carries R units in a nanosecond, so a byte is 8·10^9 units.
ghost use Rattle.std.specs.Prelude.{◌≡◌, ◌≤◌, ◌^◌};
ghost use Rattle.play_base.specs.Units.{units, time_of};

const UNITS_OF_A_BYTE: u64 = 8_000_000_000;

/// The units of `len` bytes: `len` · 8·10^9. Never refuses; constant time.
pub fn units(len: u64) -> u128
    ensures { result ≡ units len }
{
    u128::from(len) * u128::from(UNITS_OF_A_BYTE)
}

/// The nanoseconds that `len` bytes take at `rate` bits per second, rounded up. `rate` is at least 1,000 and `len` at
/// most 2^40. Never refuses; constant time.
pub fn time_of(len: u64, rate: u64) -> u64
    requires rate { 1000 ≤ rate }
    requires len { len ≤ 2 ^ 40 }
    ensures { result ≡ time_of len rate }
{
    let rate = u128::from(rate);
    ((units(len) + (rate - 1)) / rate) as u64
}
