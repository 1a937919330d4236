//! An interface of a configuration as the discipline that shares its link: HFSC or CBQ over a queue for each class, which drops at a
//! limit alone, or by RED, RED that marks, or RIO.
//!
//! The definitions say which policy is played of an interface, and what each play of it promises; the functions build the
//! discipline that keeps that policy. Nothing here sees a file or a packet.
#![tactic(auto)]

mod classes;
mod disciplines;
mod laws;
mod names;
mod queues;
mod sole;

pub use disciplines::{cbq_of, hfsc_of, one_queue_of};
pub use laws::{interfaces_keep_their_promises, walks_are_whole, zeros_give_nothing};
pub use names::names_of;
pub use sole::sole_class;
