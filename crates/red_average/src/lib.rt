//! Random early detection: a queue that drops by a moving average of its waiting packets, before it is full. It is RED of
//! Floyd and Jacobson 1993 in a fixed point of 21 bits; docs/reference/QUEUE-RULES.md has the rule and where each number comes from. What
//! other rules with averages need stands here too: an average's step, and what follows from it.
#![tactic(auto)]

mod average;
mod laws;
mod red;
mod rows;
mod ruling;
mod share;

pub use average::{idle_step, moved};
pub use laws::idle_steps_are_few;
pub use red::Red;
pub use rows::worked_examples;
pub use ruling::{Ruling, Thresholds, ruled};
