// What is due, and what is sent.
use altq_model::Rule;
use play_base::Ticket;

/// What is due at a moment.
#[derive(Clone, Copy, Debug, PartialEq, Eq)]
pub enum Pick {
    /// The head of this class, a packet of `len` bytes, is sent by this rule.
    Send {
        ticket: Ticket,
        class: u32,
        len: u32,
        rule: Rule,
    },
    /// Packets wait, and none may be sent before this moment, in nanoseconds.
    Wait {
        till: u64,
    },
    /// No packet waits.
    Empty,
}

/// A packet of `len` bytes that is sent from `start` to `end`, in nanoseconds, by this rule.
#[derive(Clone, Copy, Debug, PartialEq, Eq)]
pub struct Sending {
    pub ticket: Ticket,
    pub class: u32,
    pub len: u32,
    pub rule: Rule,
    pub start: u64,
    pub end: u64,
}
