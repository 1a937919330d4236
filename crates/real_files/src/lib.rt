//! The machine's files and its standard output, which tell nothing of what they hold, and what is kept of a run for the lines on
//! standard error.
#![tactic(auto)]

mod files;
mod seen;

pub use files::RealFiles;
pub use seen::Seen;
