//! Given fates against the arrivals, whoever made them.
#![tactic(auto)]

mod front;
mod laws;
mod parse;
mod reading;
mod worked;

pub use laws::texts_are_read_one_way;
pub use reading::{Row, RowFault, add_rows};
pub use worked::worked_rows;
