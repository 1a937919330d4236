//! Files of a play that are held in memory: those that tell everything and fail where a test plans it, and those that never fail.
#![tactic(auto)]

mod memory;
mod names;
mod numbered;
mod opened;
mod planned;
mod steady;

pub use memory::MemoryFiles;
pub use planned::Call;
pub use steady::SteadyFiles;
