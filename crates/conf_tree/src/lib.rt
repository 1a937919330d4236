//! The checked configuration: the interfaces of a text after altq.conf(5), each with its classes, their conditioners and its
//! filters, or the place and the kind of the text's first fault.
#![tactic(auto)]

mod branch;
mod class;
mod class_items;
mod class_reading;
mod conditioner;
mod conditioner_items;
mod conditioner_parts;
mod conditioner_reading;
mod conf;
mod draft;
mod filter;
mod filter_items;
mod filter_parts;
mod filter_reading;
mod interface;
mod interface_reading;
mod items;
mod laws;
mod masks;
mod names;
mod options;
mod places;
mod printing;
mod reading;
mod settings;
mod text;
mod tree;
mod whole;

pub use class::{Class, DropRule};
pub use conf::Conf;
pub use filter::{Addresses, Filter};
pub use interface::{ClassList, FilterList, Interface, Kind};
pub use laws::{faults_stand, meters_fit};
