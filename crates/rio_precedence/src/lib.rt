//! RED with in and out (RIO): random early detection by the packets' precedences, so that those of a worse precedence are dropped
//! sooner. It is RIO of Clark and Fang 1998 with three precedences, those of assured forwarding (RFC 2597);
//! docs/reference/QUEUE-RULES.md has the rule and where each number comes from. The rule that a class's file asks for, of the four that
//! there are, stands here too.
#![tactic(auto)]

mod any;
mod drop_laws;
mod precedence;
mod rio;
mod rows;
mod sequence_rows;

pub use any::AnyQueue;
pub use drop_laws::{averages_are_near_the_exact_ones, of_enough_packets_one_is_dropped};
pub use red_average::Red;
pub use rio::Rio;
pub use rows::worked_examples;
pub use sequence_rows::worked_sequences;
