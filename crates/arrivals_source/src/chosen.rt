// The way in which an interface reads what is given.
ghost use Rattle.std.specs.Prelude.{◌≡◌, ◌≤◌, true, length, IfOk};
ghost use Rattle.arrivals_source.specs.Chosen.{IsWayOf, first_of};
ghost use Rattle.conf_laws.specs.Fit.{IsInterface};

use crate::way::Way;
use arrivals_front::Given;
use conf_tree::Interface;
use discipline::Classify;
use frame_classes::Classifier;
use interface_marks::{is_conditioned, marker_of, nothing_is_marked_without_conditioners};
use play_base::NoMemory;
use std::alloc::Global;

/// How an interface reads what is given: a marker makes it where a class has a conditioner, and the file is read where no pcapng file was
/// given. A source of that way has `given` as its front. It takes the memory of a marker, if there is one; `NoMemory` comes only when
/// memory runs out.
pub fn way_of(
    alloc: Global,
    interface: &Interface,
    given: &Given,
) -> Result<Way<Classifier>, NoMemory>
    requires fits { IsInterface interface.now }
    requires few { given.now.rest ≡ true → length given.now.front.items ≤ 24 }
    ensures { IfOk result (IsWayOf interface.now given.now) }
{
    nothing_is_marked_without_conditioners();
    if !is_conditioned(interface) {
        return Ok(if given.rest {
            Way::AsGiven
        } else {
            Way::Converted
        });
    }
    if given.rest {
        return Ok(Way::Marked(marker_of(alloc, interface, given.front.as_slice())?));
    }
    Ok(Way::MarkedConverted(marker_of(alloc, interface, &[])?))
}

impl<C: Classify + Drop> Way<C> {
    /// The bytes of this front, of those that were taken before, that stand before what is read. Does not allocate, in constant time.
    pub fn first<'g>(&self, front: &'g [u8]) -> &'g [u8]
        ensures { result.now ≡ first_of self.now front.now }
    {
        match self {
            Way::AsGiven => front,
            _ => &[],
        }
    }
}
