//! What the inputs of a command say: its configuration and, where it reads one, its capture of arrivals.
#![tactic(auto)]

mod inputs;
mod laws;
mod reading;
mod stop;

pub use inputs::{Arrivals, Asking, ReadConf, Unready, found};
pub use laws::inputs_say_one_thing;
pub use reading::{read_configuration, read_inputs};
pub use stop::Stop;
