//! The bytes of a case, in words: frames and captures are made from the words of a line, changed by others, and told again.
//!
//! README.md of the crate `transcript` says what a line may say. `None` of a function says that the words are not understood, or that
//! memory ran out.
#![tactic(auto)]

mod capture;
mod changes;
mod packet;
mod records;
mod texts;
mod words;

pub use capture::{Form, arrive, begin};
pub use changes::{How, change};
pub use packet::frame_of;
pub use records::add_records;
pub use texts::{add_hex, add_lines, add_text};
pub use words::{number, word};
