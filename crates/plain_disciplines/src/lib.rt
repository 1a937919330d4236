//! Two plain queueing disciplines, which keep the laws of the trait.
#![tactic(auto)]

mod one_queue;
mod paced;
mod strict;

pub use discipline::{Classify, Discipline, Fate, Pick, Placed, Reason, Rule, Sending, Verdict};
pub use one_queue::one_class_is_one_queue;
pub use paced::Paced;
pub use strict::Strict;
