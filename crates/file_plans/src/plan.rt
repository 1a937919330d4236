// The files of a command, in the order in which they come to be.
use crate::Part;

/// Whether a file is opened to be read, or created to be written.
#[derive(Clone, Copy, Debug, PartialEq, Eq)]
pub enum Way {
    Read,
    Written,
}

/// A file of a plan.
#[derive(Clone, Copy, Debug)]
pub struct Entry<'a> {
    pub part: Part,
    pub name: &'a str,
    pub way: Way,
}
