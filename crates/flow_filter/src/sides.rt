//! The filters of one version of IP by their ports.
ghost use Rattle.std.specs.Prelude.{◌≡◌, IfOk, Some};
ghost use Rattle.flow_filter.specs.Index.{least};
ghost use Rattle.flow_filter.specs.Numbers.{ports_in};
ghost use Rattle.flow_filter.specs.Tables.{AreSides, FindsFirst};

use crate::numbers::{Numbers, ports_in};
use crate::ports::{Group, Side, Version};
use crate::table::Table;
use conf_tree::Filter;
use play_base::NoMemory;
use std::alloc::Global;

/// The filters of a version that fix the target's port, and the others, by the source's.
#[derive(Drop)]
pub struct Sides {
    pub by_target: Table,
    pub by_source: Table,
}

impl Sides {
    /// The sides of a version.
    pub(crate) fn build(
        alloc: Global,
        version: Version,
        filters: &[Filter],
        places: &[u32],
    ) -> Result<Sides, NoMemory>
        ensures { IfOk result (AreSides version filters.now places.now) }
    {
        let target = Group {
            version,
            side: Side::Target,
        };
        let source = Group {
            version,
            side: Side::Source,
        };
        let by_target = Table::build(alloc, target, filters, places)?;
        let by_source = Table::build(alloc, source, filters, places)?;
        Ok(Sides {
            by_target,
            by_source,
        })
    }

    /// The number of the first filter that matches a flow of that version, in the order in which they are asked.
    #[inline]
    pub(crate) fn first(&self, flow: &Numbers) -> Option<u32>
        ensures { FindsFirst self.now flow.now result }
    {
        let Some((source, target)) = ports_in(flow) else {
            return self.by_source.first_under(0, flow);
        };
        if self.by_source.is_empty() {
            return self.by_target.first_under(target, flow);
        }
        self.first_of_all(source, target, flow)
    }

    /// The same for a flow with these ports, of the filters of both sides.
    #[inline(never)]
    fn first_of_all(&self, source: u16, target: u16, flow: &Numbers) -> Option<u32>
        ensures { ports_in flow.now ≡ Some (source, target) → FindsFirst self.now flow.now result }
    {
        let any = self.by_source.first_under(0, flow);
        let of_source = self.by_source.first_under(source, flow);
        let of_target = self.by_target.first_under(target, flow);
        least(any, least(of_source, of_target))
    }
}

/// The lesser of two numbers that may be there.
fn least(a: Option<u32>, b: Option<u32>) -> Option<u32>
    ensures { result ≡ least a b }
{
    match (a, b) {
        (Some(a), Some(b)) => Some(a.min(b)),
        (Some(a), None) => Some(a),
        (None, b) => b,
    }
}
