//! The texts of a play: the names of its classes, the rows of its fates, its statistics, and its summary.
#![tactic(auto)]

mod laws;
mod names;
mod number;
mod rows;
mod stats;
mod summary;
mod worked;

pub use altq_model::Counts;
pub use laws::texts_extend;
pub use names::Names;
pub use rows::{Rows, fate_row, fates_header};
pub use stats::stats_text;
pub use summary::summary_text;
pub use worked::worked_rows;
