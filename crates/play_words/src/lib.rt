//! The words of the command line.
#![tactic(auto)]

mod options;
mod words;

pub use options::options_read;
pub use words::{
    BoundWords, ChainWords, CheckWords, Command, ConditionWords, MakeWords, PlayWords, Unread,
    VerifyWords, WordsFault, count, number_to, read_words,
};
