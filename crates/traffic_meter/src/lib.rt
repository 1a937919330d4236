//! Meters of traffic, and the marks that their colours give: which packets of a class keep to a rate.
//!
//! A meter colours each packet green, yellow or red, by its arrival and its length, whatever mark it carries. It is the
//! single-rate three colour marker of RFC 2697 or the two-rate one of RFC 2698, both colour-blind, with two differences: a bucket
//! is an exact fluid and not whole bytes, and a packet counts with its link header. The colour becomes the drop precedence of a
//! code point of assured forwarding (RFC 2597).
#![tactic(auto)]

mod laws;
mod mark;
mod meter;
mod rows;
mod rule;

pub use laws::{
    all_are_green_where_all_conform, coloured_packets_conform, red_packets_change_no_other_colour,
};
pub use mark::{code_point, marked_tos};
pub use meter::Meter;
pub use rows::{code_points, worked_amounts, worked_colours};
pub use rule::{Colour, MeterRule};
