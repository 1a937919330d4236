//! The files of a command as a plan: which are opened and created, in which order, and what becomes of them.
//!
//! Two records say what becomes of files. `Came`, of which exactly these files came to be for exactly these places, composes: it is what the
//! steps of a command promise. `FilesEnd`, which follows from it, is what a command promises: each new file is one of the plan's under its
//! name, none comes twice, none before those that stand before it in the plan, what was not created keeps its bytes, and so does every other
//! name.
#![tactic(auto)]

mod opening;
mod part;
mod plan;
mod rows;

pub use opening::{Stopped, open_along, open_next};
pub use part::Part;
pub use plan::{Entry, Way};
pub use rows::worked_plans;
