// The names of the queue classes.
ghost use Rattle.std.specs.Prelude.{◌≡◌, ◌<◌, ◌≤◌, ◌↔◌, ℕ, IfOk, true, length};
ghost use Rattle.conf_laws.specs.Fit.{IsInterface};
ghost use Rattle.conf_tree.specs.declared.class.Class.{Class};
ghost use Rattle.conf_tree.specs.Family.{is_leaf, is_queue_class};
ghost use Rattle.interface_policy.specs.Policy.{queue_names};

use conf_tree::{Class, Interface, Kind};
use play_base::NoMemory;
use play_text::Names;
use std::alloc::Global;

// Whether a class of this number has no child.
pub(crate) fn is_leaf(classes: &[Class], number: u32) -> bool
    ensures { result ≡ is_leaf classes.now number }
{
    for class in classes {
        if class.parent == Some(number) {
            return false;
        }
    }
    true
}

// Whether the class of a number holds packets.
fn is_queue_class(interface: &Interface, number: u32) -> bool
    requires { number < length interface.now.classes }
    ensures { result ≡ is_queue_class interface.now.kind interface.now.classes number }
{
    match interface.kind {
        Kind::Hfsc => is_leaf(interface.classes.as_slice(), number),
        Kind::Cbq => true,
    }
}

/// The classes of an interface that hold packets, in the order of the text, with their names. `NoMemory` comes only when memory
/// runs out.
pub fn names_of(alloc: Global, interface: &Interface) -> Result<Names, NoMemory>
    requires { IsInterface interface.now }
    ensures { IfOk result (λ names. names ≡ queue_names interface.now) }
{
    let classes = interface.classes.as_slice();
    let mut names = Names::make(alloc);
    for number in 0..classes.len() as u32 {
        if is_queue_class(interface, number) {
            names.add(number, classes[number as usize].name.as_str())?;
        }
    }
    Ok(names)
}
