//! The play of an interface over files: reads the arrivals of a capture one by one, decides what becomes of each, and writes
//! departures and fates as they are decided.
#![tactic(auto)]

mod arriving;
mod ending;
mod fault;
mod keeper;
mod kept;
mod outputs;
mod playing;
mod sending;
mod spare;
mod telling;
mod writing;

pub use fault::{Limit, Opened, Output, PlayFault};
pub use keeper::{Keeper, KeepsNothing};
pub use kept::KeptFate;
pub use outputs::output_fault;
pub use play_core::Totals;
pub use playing::play_told;
