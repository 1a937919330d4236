//! The definitions of CBQ, in specs/, and the class that they speak of.
//!
//! CBQ keeps an average of how far each class is from its rate. A class that is not ahead of it may send, and one that is may
//! borrow from a class above it that is not. Of the classes that may send those of the greatest priority go first, and among
//! them weighted rounds decide. The source is Floyd and Jacobson, "Link-sharing and resource management models for packet
//! networks", IEEE/ACM Transactions on Networking 3(4), 1995.
#![tactic(auto)]

ghost use Rattle.std.specs.Prelude.{◌≡◌};
ghost use Rattle.cbq_model.specs.Choice.{goes_before};

mod choice_laws;
mod laws;
mod rows;
mod way_rows;

pub use choice_laws::{eight_levels_are_the_whole_way, picks_are_the_first_candidates};
pub use laws::{cbq_is_lawful, class_keeps_its_rate};
pub use rows::{
    cbq_after_the_manual, class_above_its_rate_does_not_lend, class_is_paced_and_borrows,
    cursor_of_the_ring_goes_first, emptied_class_keeps_no_credit, quanta_and_rounds_are_rounded_up,
    weighted_round_of_two,
};
pub use way_rows::{worked_picks, worked_ways};

/// A class of CBQ: its parent, `None` for the root; its rate in bits per second, 1,000 to 10^12; its priority, 0 to 7, the greatest of
/// which goes first; whether it may borrow from its parent; and how many packets, 1 to 1,000, of how many bytes, 1 to 262,144, it
/// may send in a burst.
#[derive(Clone, Copy, Debug, PartialEq, Eq)]
pub struct CbqClass {
    pub parent: Option<u32>,
    pub rate: u64,
    pub priority: u8,
    pub borrow: bool,
    pub maxburst: u32,
    pub packetsize: u32,
}

/// What decides between classes that may send.
#[derive(Clone, Copy, Debug, PartialEq, Eq)]
pub struct Rank {
    pub priority: u8,
    /// How many rounds the class needs until its credit pays for its head.
    pub rounds: u64,
    /// Whether it stands before the cursor of its ring in the file, and so comes after those that do not.
    pub wraps: bool,
    pub class: u32,
}

impl Rank {
    /// Whether a class of this rank goes before one of another: by the greater priority, then by the fewer rounds, then by the ring.
    pub fn goes_before(self, other: Rank) -> bool
        ensures { result ≡ goes_before self other }
    {
        if self.priority != other.priority {
            self.priority > other.priority
        } else if self.rounds != other.rounds {
            self.rounds < other.rounds
        } else if self.wraps {
            other.wraps && self.class < other.class
        } else {
            other.wraps || self.class < other.class
        }
    }
}
