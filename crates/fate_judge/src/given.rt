// What rows of fates are held to, and the answer.
/// A packet as it arrived at its class: at this moment in nanoseconds, with this length in bytes and this precedence.
#[derive(Clone, Copy)]
pub struct Arrived {
    pub at: u64,
    pub len: u32,
    pub class: u32,
    pub prec: u8,
}

/// What can become of a class's packets: the rules by which they can be sent, and whether they can be dropped before the queue is
/// full. A queue may always be full.
#[derive(Clone, Copy)]
pub struct Allowed {
    pub real_time: bool,
    pub share: bool,
    pub own: bool,
    pub borrow: bool,
    pub early: bool,
}

/// The tests of rows, the least first.
#[derive(Clone, Copy)]
pub enum Kind {
    /// Number, arrival, length and class are those of a packet that arrived, and its fate can occur in its class.
    Reading,
    /// Each packet has one row. Where two rows have one packet, the later of them fails; where a packet has none, the row after
    /// the last one does.
    EachOnce,
    /// In each class the numbers of sendings rise, the numbers of drops rise, and starts do not fall; a drop stands after every
    /// sending that starts before its arrival, and before every other sending.
    Order,
    /// No start is before the packet's arrival or before the end of the sending before it.
    Moments,
    /// Each end is the link's, which carries the fraction of a nanosecond within a run.
    Ends,
}

/// Why rows are no journal.
#[derive(Clone, Copy)]
pub enum Refuted {
    /// The first row that fails the least test that fails; rows are counted from 1.
    At { row: u64, kind: Kind },
    NoMemory,
}
