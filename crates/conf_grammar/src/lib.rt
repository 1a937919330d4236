//! The grammar of the statements of a configuration as what a user writes, after altq.conf(5) in this project's own profile: its fixed
//! words in order, and options in any order, each with its values in their ranges. The reading of statements is exactly this grammar.
//! The functions do nothing: each states its law.
#![tactic(auto)]

ghost use Rattle.conf_grammar.specs.Laws.{ReadIsSpelled, SpelledIsRead, SpelledLinesAreStatements, StatementsAreSpelled};

mod rows;

pub use rows::{worked_bounds, worked_lines, worked_refusals};

/// Words that spell a statement are read without a fault as this statement, with exactly what they say as its items, each at its word;
/// and words that are read without a fault spell the statement that they are read as. The same holds of each logical line of at most
/// 4,096 bytes.
pub fn reading_is_the_grammar()
    ensures spelled { SpelledIsRead }
    ensures read { ReadIsSpelled }
    ensures lines { SpelledLinesAreStatements }
    ensures statements { StatementsAreSpelled }
{}
