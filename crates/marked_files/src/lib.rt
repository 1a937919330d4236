//! Files over borrowed files, of which one holds a classic capture that is marked as it is read: the code point of each frame whose
//! class has a conditioner becomes that of its colour (RFC 2475), and every other byte stays.
//!
//! A `Marker` owns all memory, and is lent to `MarkedFiles` together with the files. What the file then has left to read is told by
//! the definition of the marked capture in `traffic_marks`.
#![tactic(auto)]

mod behind;
mod files;
mod laws;
mod marker;
mod metering;
mod record_head;
mod stage;
mod window;

pub use behind::Behind;
pub use files::MarkedFiles;
pub use laws::reading_marks;
pub use marker::Marker;
