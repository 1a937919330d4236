//! A play of one interface: what it plays, what it leaves, and when each of its ends comes. `play`, `shares`, `make` and both links of
//! `chain` are such plays.
#![tactic(auto)]

mod creating;
mod failing;
mod interface;
mod kind;
mod laws;
mod play;
mod playing;

pub use failing::play_failure;
pub use kind::play_source;
pub use play::Play;
pub use playing::play_watched;
