//! What a queueing discipline and a classifier of frames promise: two traits with their laws. A loop is proved from these laws
//! alone, and so plays any discipline. A value *stands for* a history of offers and sendings if it holds what that history
//! leaves; it need not store the history, and may stand for several.
#![tactic(auto)]

mod classify;
mod laws;
mod pick;

pub use altq_model::{Fate, Placed, Reason, Rule, Verdict};
pub use classify::Classify;
pub use laws::Discipline;
pub use pick::{Pick, Sending};
