//! The statements of a configuration text, after altq.conf(5) in this project's own profile: each logical line read word by
//! word, up to the first word that is not allowed there.
#![tactic(auto)]

mod fault;
mod grammar;
mod item;
mod laws;
mod options;
mod part;
mod slot;
mod statement;
mod step;

pub use fault::{ConfFault, ConfKind, ConfPlace};
pub use item::{Item, Items, Text, What};
pub use laws::{items_are_sound, line_faults_stand, options_are_whole};
pub use options::{
    Key, MOST_AF, MOST_BEND, MOST_BURST, MOST_PORT, MOST_PROTOCOL, MOST_RATE, MOST_RULENO,
    MOST_TOS, Slots,
};
pub use statement::{Form, Statement, statements};
