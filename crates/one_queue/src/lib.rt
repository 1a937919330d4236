//! One queue as a discipline: of the classes of an interface one alone holds packets, and its head is sent as soon as the link is free.
#![tactic(auto)]

mod single;

pub use single::OneQueue;
