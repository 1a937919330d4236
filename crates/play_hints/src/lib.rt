//! What a person needs to mend a mistake: one to three lines in one voice, `SUBJECT: fault: remedy`. Each byte is printable.
#![tactic(auto)]

mod calling;
mod capture;
mod conf;
mod fault;
mod files;
mod line;
mod options;
mod words;

pub use calling::VERSION;
pub use capture::capture_hint;
pub use conf::conf_hint;
pub use files::{NO_UTF8, OUT_OF_MEMORY, file_hint, long_hint, play_line, refuted_hint};
pub use words::words_hint;
