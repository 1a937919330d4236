//! Writing in pieces: short texts are gathered, up to 65,536 bytes, and then written at once: any bytes, records of a capture, and
//! rows of fates.
#![tactic(auto)]

mod gathered;
mod records;
mod rows;

pub use gathered::{flush, gather};
pub use records::gather_record;
pub use rows::{FateRow, flush_rows, gather_row};
