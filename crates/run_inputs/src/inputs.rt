// What a command asks of its inputs, and what is read of them.
ghost use Rattle.std.specs.Prelude.{◌≡◌, IsSome, Some};
ghost use Rattle.run_inputs.specs.Says.{interface_of};

use crate::Stop;
use arrivals_front::Given;
use conf_tree::{Conf, Interface};

/// What a command asks of its configuration: the file's name, the interface and, of two links in a row, the next one.
#[derive(Clone, Copy)]
pub struct Asking<'a> {
    pub config: &'a str,
    pub interface: &'a str,
    pub next: Option<&'a str>,
}

/// A configuration that has the interfaces asked for, and the file that it was read from.
#[derive(Drop)]
pub struct ReadConf {
    pub conf: Conf,
    pub file: u32,
}

/// The file of the arrivals, and how they begin.
#[derive(Drop)]
pub struct Arrivals {
    pub file: u32,
    pub given: Given,
}

/// Why a command does not have its inputs.
#[derive(Clone, Copy)]
pub enum Unready {
    /// The inputs say so, or could not be read.
    Stop(Stop),
    /// No memory was left.
    NoMemory,
}

/// The interface of a name that the configuration has. Takes no memory; takes time linear in the interfaces, of which there are at most 16.
pub fn found<'c>(conf: &'c Conf, name: &str) -> &'c Interface
    requires { IsSome (interface_of name.now conf.now) }
    ensures { interface_of name.now conf.now ≡ Some result.now }
{
    match conf.interface(name) {
        Some(interface) => interface,
        None => unreachable!(),
    }
}
