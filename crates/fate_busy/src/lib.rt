//! Rows of given fates against a link that never idles while a packet waits, whoever made them.
#![tactic(auto)]

mod busy;
mod left;

pub use busy::first_idle;
