//! The path of each packet through two links in a row, of which the second plays what the first sent. It knows no file: it is given
//! the fates of both plays, and makes a text of comma-separated values.
#![tactic(auto)]

mod firsts;
mod keeping;
mod laws;
mod outcome;
mod path;
mod row;
mod seconds;
mod table;
mod worked;

pub use firsts::{First, Firsts};
pub use keeping::Tables;
pub use laws::kept_journals_are_journals;
pub use outcome::{Outcome, Passage};
pub use path::Path;
pub use row::{Piece, path_header};
pub use seconds::{Second, Seconds};
pub use worked::worked_paths;
