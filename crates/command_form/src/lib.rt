//! The form of every command: its plan, what its inputs do to it, and how it ends.
#![tactic(auto)]

mod laws;
mod unready;

pub use laws::stopped_inputs_leave_all;
pub use unready::unready_failure;
