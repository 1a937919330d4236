//! The definitions of a play, in specs/: its events and histories, its policies, the link and the laws; and the plain
//! enums that they speak of.
#![tactic(auto)]

ghost use Rattle.std.specs.Prelude.{◌≡◌};
ghost use Rattle.altq_model.specs.History.{is_kept};

mod rows;

pub use rows::worked_examples;

/// By which rule a packet was sent.
#[derive(Clone, Copy, Debug, PartialEq, Eq)]
pub enum Rule {
    RealTime,
    Share,
    Own,
    Borrow,
}

/// Why a packet was dropped.
#[derive(Clone, Copy, Debug, PartialEq, Eq)]
pub enum Reason {
    /// The queue held as many packets as its limit.
    Full,
    /// RED or RIO dropped it before the queue was full: by a random word, or because the spacing of drops was used up.
    Early,
    /// The queue's average had reached its upper threshold.
    Forced,
}

/// What a queue rule says of a packet that is offered.
#[derive(Clone, Copy, Debug, PartialEq, Eq)]
pub enum Verdict {
    Keep,
    /// It is kept, and marked as having met congestion (RFC 3168), where the rule would have dropped it early.
    Mark,
    Drop(Reason),
}

impl Verdict {
    /// Whether a packet with this verdict waits until it is sent.
    pub fn is_kept(self) -> bool
        ensures { result ≡ is_kept self }
    {
        match self {
            Verdict::Keep | Verdict::Mark => true,
            Verdict::Drop(_) => false,
        }
    }
}

/// What became of a packet. Times are in nanoseconds.
#[derive(Clone, Copy, Debug, PartialEq, Eq)]
pub enum Fate {
    Dropped(Reason),
    Sent { start: u64, end: u64, rule: Rule },
}

/// The class that a frame belongs to, and its precedence in a queue with several: 0, 1 or 2.
#[derive(Clone, Copy, Debug, PartialEq, Eq)]
pub struct Placed {
    pub class: u32,
    pub prec: u8,
}

/// What the statistics say of a class, or of all of them. Bytes are sums of lengths.
#[derive(Clone, Copy, Debug, PartialEq, Eq)]
pub struct Counts {
    pub arrived: u64,
    pub arrived_bytes: u64,
    /// The arrivals whose own stamp is less than the moment at which they arrive.
    pub raised: u64,
    pub sent: u64,
    pub sent_bytes: u64,
    /// The drops, by their reason.
    pub full: u64,
    pub early: u64,
    pub forced: u64,
}
