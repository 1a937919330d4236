//! The decisions of a play, one at a time: which packet is dropped, which is sent, and when. It sees the next arrival and a
//! discipline by its laws, and knows no file. Once it has begun it takes memory for the bytes of a packet that is kept, and for
//! nothing else.
#![tactic(auto)]

mod laws;
mod progress;
mod rows;
mod state;
mod step;
mod totals;
mod turn;

pub use laws::plays_go_on;
pub use rows::worked_packets;
pub use state::Progress;
pub use totals::Totals;
pub use turn::{Departure, Dropped, LentPacket, Turn};
