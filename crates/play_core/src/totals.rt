// The counts of a play.

/// The counts of a play: its arrivals, its sendings and its drops, and the last end in nanoseconds, 0 if nothing was sent.
#[derive(Clone, Copy, Debug, PartialEq, Eq)]
pub struct Totals {
    pub arrived: u64,
    pub sent: u64,
    pub dropped: u64,
    pub last_end: u64,
}
