// A record of a capture.
ghost use Rattle.std.specs.Prelude.{◌≤◌, ◌<◌, ◌^◌, length};

/// A record that a reader found: as `Record`, and how many of its bytes were captured, which the reader lends.
#[derive(Clone, Copy)]
pub struct Found {
    pub number: u64,
    pub stamp: u64,
    pub len: u32,
    pub captured: u32,
    ghost counted: { number ≤ 4000000 },
    ghost early: { stamp < 2 ^ 62 },
    ghost some: { 1 ≤ len },
    ghost short: { len ≤ 262144 },
    ghost within: { captured ≤ len },
}

/// A record of a capture. `number` counts from 1, to 4,000,000; `stamp` is in nanoseconds, below 2^62; `len` is the greater of the
/// original and the captured length in bytes, 1 to 262,144; `bytes` are those captured, which the reader lends until it is used again.
#[derive(Clone, Copy)]
pub struct Record<'a> {
    pub number: u64,
    pub stamp: u64,
    pub len: u32,
    pub bytes: &'a [u8],
    ghost counted: { number ≤ 4000000 },
    ghost early: { stamp < 2 ^ 62 },
    ghost some: { 1 ≤ len },
    ghost short: { len ≤ 262144 },
    ghost within: { length bytes.now ≤ len },
}
