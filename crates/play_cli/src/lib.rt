//! All that the program does: it reads the words, runs the command that they name, and prints its message.
#![tactic(auto)]

mod program;

pub use program::{Ran, run, run_read, steady_runs_meet_no_fault};
