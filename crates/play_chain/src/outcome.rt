// What becomes of a packet on its way.

/// What became of a packet on two links.
#[derive(Clone, Copy)]
pub enum Outcome {
    /// The first link dropped it.
    DroppedFirst,
    /// The second link dropped it.
    DroppedSecond,
    /// The first link sent it. Its end on the second, in nanoseconds; None where its second fate is not known.
    Sent(Option<u64>),
}

/// When a packet came to the first link, in nanoseconds, and what became of it.
#[derive(Clone, Copy)]
pub struct Passage {
    pub arrival: u64,
    pub outcome: Outcome,
}
