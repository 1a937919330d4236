//! Where the filters of a version and a port stand among all.
ghost use Rattle.std.specs.Prelude.{List, IfOk};
ghost use Rattle.conf_tree.specs.declared.filter.Filter.{Filter};
ghost use Rattle.flow_filter.specs.Index.{Indexes};
ghost use Rattle.flow_filter.specs.Ranked.{matches_at};
ghost use Rattle.flow_filter.specs.Search.{IsFirst};
ghost use Rattle.packet_heads.specs.Heads.{flow_of};

use crate::numbers::{Numbers, numbers_4, numbers_6};
use crate::ports::Version;
use crate::ranking::ranked;
use crate::sides::Sides;
use conf_tree::Filter;
use packet_heads::FlowHeads;
use play_base::NoMemory;
use std::alloc::Global;

/// The order in which filters are asked, and those of each version and port in it.
#[derive(Drop)]
pub struct Index {
    pub places: Vec<u32>,
    pub four: Sides,
    pub six: Sides,
}

impl Index {
    /// The index of filters.
    pub(crate) fn build(alloc: Global, filters: &[Filter]) -> Result<Index, NoMemory>
        ensures { IfOk result (Indexes filters.now) }
    {
        let places = ranked(alloc, filters)?;
        let four = Sides::build(alloc, Version::V4, filters, places.as_slice())?;
        let six = Sides::build(alloc, Version::V6, filters, places.as_slice())?;
        Ok(Index { places, four, six })
    }

    /// The number of the first filter that matches a flow, in the order in which they are asked.
    pub(crate) fn first(&self, heads: &FlowHeads) -> Option<u32>
        ensures { (filters : List Filter) → Indexes filters self.now
            → IsFirst (matches_at filters self.now.places.items (flow_of heads.now)) result }
    {
        match heads {
            FlowHeads::V4 {
                tos,
                protocol,
                source,
                target,
                ports,
            } => match numbers_4(*tos, *protocol, source, target, *ports) {
                Some(numbers) => self.four.first(&Numbers::V4(numbers)),
                None => None,
            },
            FlowHeads::V6 {
                tos,
                protocol,
                source,
                target,
                ports,
            } => match numbers_6(*tos, *protocol, source, target, *ports) {
                Some(numbers) => self.six.first(&Numbers::V6(numbers)),
                None => None,
            },
            FlowHeads::Other => None,
        }
    }
}
