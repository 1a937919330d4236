//! Sets of at most 256 classes, a bit for each, and the classes that are held back, each till a moment of its own.
#![tactic(auto)]

mod held;
mod set;

pub use held::HeldClasses;
pub use set::ClassSet;
