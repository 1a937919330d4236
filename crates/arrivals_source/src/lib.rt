//! The arrivals of a play as one type: the run's files with their arrivals as given, converted, marked, or both.
#![tactic(auto)]

mod chosen;
mod counted;
mod laws;
mod reading;
mod source;
mod way;

pub use chosen::way_of;
pub use counted::CountedFiles;
pub use laws::reading_arrivals;
pub use source::ArrivalsSource;
pub use way::Way;
