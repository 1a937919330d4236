//! Rows of given fates against the packets that arrived, whoever made them.
#![tactic(auto)]

mod all;
mod ends;
mod given;
mod judge;
mod laws;
mod moments;
mod once;
mod order;
mod reading;

pub use given::{Allowed, Arrived, Kind, Refuted};
pub use judge::judge_order;
pub use laws::rows_fail_one_way;
