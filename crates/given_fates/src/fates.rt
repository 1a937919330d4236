// What was read of given fates.
use fate_check::Row;

/// What a text of fates holds.
#[derive(Drop)]
pub enum Fates {
    /// The rows behind the head row.
    Rows(Vec<Row>),
    /// The first row that is none; the head row is row 0.
    FailsAt(u64),
}

/// Why fates cannot be had whole.
#[derive(Clone, Copy, Debug, PartialEq, Eq)]
pub enum FatesFault {
    /// They have more than 2^30 bytes.
    TooLong,
    /// A read of them failed.
    Read,
    /// No memory was left for them.
    NoMemory,
}
