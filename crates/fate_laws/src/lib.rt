//! Laws of given files: they fail in one way; what rows that pass give; and that the files of a play pass.
#![tactic(auto)]

mod laws;

pub use laws::{files_fail_one_way, files_of_plays_pass, rows_that_pass};
