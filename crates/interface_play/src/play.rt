// What is played, and where.
use arrivals_front::Given;
use conf_tree::Interface;
use file_plans::Entry;

/// A play: its interface, the seed of its words, how its arrivals begin and the file that was opened for them, and its outputs.
#[derive(Clone, Copy)]
pub struct Play<'a> {
    pub interface: &'a Interface,
    pub seed: u64,
    pub given: &'a Given,
    pub file: u32,
    pub arrivals: Entry<'a>,
    pub departures: Entry<'a>,
    pub fates: Entry<'a>,
    pub stats: Entry<'a>,
}
