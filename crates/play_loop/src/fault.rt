// The files of a play, and why it ends early.

use capture_model::Damage;

/// The files of a play, each answered by the files that it is played over: the arrivals opened, the others created. The arrivals are
/// the bytes `first`, which were taken of their file before, at most 24, and what that has left.
#[derive(Clone, Copy)]
pub struct Opened<'a> {
    pub arrivals: u32,
    pub first: &'a [u8],
    pub departures: u32,
    pub fates: u32,
    pub stats: u32,
}

/// A file that a play writes.
#[derive(Clone, Copy, Debug, PartialEq, Eq)]
pub enum Output {
    Departures,
    Fates,
    Statistics,
}

/// A limit that ends a play.
#[derive(Clone, Copy, Debug, PartialEq, Eq)]
pub enum Limit {
    /// The capture has bytes after 4,000,000 records, or a record would end past byte 2^30.
    Capture,
    /// The sending that is due next would end at 2^32 seconds or later.
    Clock,
}

/// Why a play ends early.
#[derive(Clone, Copy, Debug, PartialEq, Eq)]
pub enum PlayFault {
    /// The capture fails this test first.
    Capture(Damage),
    /// A read of the arrivals failed.
    Read,
    /// A write of this file failed.
    Write(Output),
    /// A limit was reached.
    Limit(Limit),
    /// No memory was left.
    NoMemory,
}
