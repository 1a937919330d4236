//! The queues of consecutive classes of a discipline: each class has its queue and the list of its packets. What every discipline does with
//! them is done and proved here: offers to a queue, the head of a list, and its leaving.
#![tactic(auto)]

mod leaf;
mod rows;

pub use rows::ClassQueues;
