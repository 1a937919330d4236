//! Laws of the checked configuration, each the contract of a function that does nothing.
#![tactic(auto)]

mod laws;
mod rows;

pub use laws::{
    configurations_fit, faults_stand_at_words, faults_stand_in_texts, interfaces_have_queues,
    statements_are_read, text_has_its_statements, texts_read_back,
};
pub use rows::worked_rows;
