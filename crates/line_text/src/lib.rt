//! The lines, words, numbers and addresses of a configuration text, after altq.conf(5) in this project's own profile.
#![tactic(auto)]

mod address;
mod line;
mod number;
mod word;

pub use address::{ip4, ip6};
pub use line::{Line, next_line};
pub use number::{cut, decimal, rate, whole};
pub use word::{LineFault, Token, word_count, words};
