//! What CBQ keeps of its classes: their averages and credits, whom each may ask for a loan, which of them are held back, and which have
//! each priority.
//!
//! A class that is not ahead of its rate sends by itself, another one by a loan from a class above it. After Floyd and Jacobson 1995.
#![tactic(auto)]

mod build;
mod fixed;
mod held;
mod lent;
mod rings;
mod sent;
mod sharing;

pub use held::{hold_refused, wake};
pub use lent::Lent;
pub use rings::Rings;
pub use sharing::Shares;
