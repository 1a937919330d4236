//! The class of a flow: which filter of an interface wins, after altq.conf(5).
//!
//! A filter matches a flow where its addresses under their masks, its ports, its protocol and its type of service agree
//! with the flow's. Of those that match the one with the greatest rule number wins, and of those with that number the first;
//! where none matches, the packet goes to the default class. The filters are sorted once, those of a version of IP and a port
//! are found at one look or by bisection, and each is compared in numbers that are made once.
#![tactic(auto)]

mod control;
mod entries;
mod entry;
mod filters;
mod index;
mod laws;
mod likely;
mod matching;
mod numbers;
mod ports;
mod ranking;
mod rows;
mod sides;
mod table;
mod winner;

pub use filters::Filters;
pub use laws::{class_is_there, control_takes_its_protocols, greatest_rule_wins};
pub use rows::worked_examples;
