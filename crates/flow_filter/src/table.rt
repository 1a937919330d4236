//! The filters of a group by their ports, each in numbers.
ghost use Rattle.std.specs.Prelude.{◌≡◌, ℕ, List, [], IfOk, Some, option_map, slice_get, true};
ghost use Rattle.conf_tree.specs.declared.filter.Filter.{Filter};
ghost use Rattle.packet_heads.specs.Flow.{Heads};
ghost use Rattle.flow_filter.specs.Entries.{of_version};
ghost use Rattle.flow_filter.specs.Numbers.{AreNumbersOf};
ghost use Rattle.flow_filter.specs.Ranked.{matches_at};
ghost use Rattle.flow_filter.specs.Search.{IsFirstUnder};
ghost use Rattle.flow_filter.specs.Tables.{IsTable};
ghost use Rattle.flow_filter.specs.declared.ports.Group.{Group};

use crate::entries::Entries;
use crate::likely::{likely_stretches, stretch};
use crate::numbers::Numbers;
use crate::ports::{Filed, Group, Stretch, filed_by_port};
use conf_tree::Filter;
use play_base::NoMemory;
use std::alloc::Global;

/// The filters of a group in the order of their ports, their entries in the same order, and the stretches of ports.
#[derive(Drop)]
pub struct Table {
    pub filed: Vec<Filed>,
    pub entries: Entries,
    pub likely: Vec<Stretch>,
}

impl Table {
    /// The table of a group.
    pub(crate) fn build(
        alloc: Global,
        group: Group,
        filters: &[Filter],
        places: &[u32],
    ) -> Result<Table, NoMemory>
        ensures { IfOk result (IsTable group filters.now places.now) }
    {
        let filed = filed_by_port(alloc, group, filters, places)?;
        let entries = Entries::build(alloc, group.version, filters, places, filed.as_slice())?;
        let likely = likely_stretches(alloc, filed.as_slice())?;
        Ok(Table {
            filed,
            entries,
            likely,
        })
    }

    /// Whether no filter is filed.
    #[inline]
    pub(crate) fn is_empty(&self) -> bool
        ensures { result ≡ true → self.now.filed.items ≡ [] }
    {
        self.filed.is_empty()
    }

    /// The first of those filed under a port whose filter matches a flow. It is the mere test where none is filed.
    #[inline]
    pub(crate) fn first_under(&self, port: u16, flow: &Numbers) -> Option<u32>
        ensures { (group : Group) (filters : List Filter) (places : List ℕ) (heads : Heads) → IsTable group filters places self.now
            → AreNumbersOf (of_version group.version heads) (Some flow.now)
            → IsFirstUnder self.now.filed.items port (matches_at filters places (of_version group.version heads)) result }
    {
        if self.filed.is_empty() {
            return None;
        }
        self.first_of(port, flow)
    }

    /// The same, by a search.
    #[inline(never)]
    fn first_of(&self, port: u16, flow: &Numbers) -> Option<u32>
        ensures { (group : Group) (filters : List Filter) (places : List ℕ) (heads : Heads) → IsTable group filters places self.now
            → AreNumbersOf (of_version group.version heads) (Some flow.now)
            → IsFirstUnder self.now.filed.items port (matches_at filters places (of_version group.version heads)) result }
    {
        let filed = self.filed.as_slice();
        let its = stretch(filed, self.likely.as_slice(), port);
        match self.entries.first_fit(flow, its.start, its.end) {
            Some(k) => rank_at(filed, k),
            None => None,
        }
    }
}

/// The number of the filter that is filed at a place.
fn rank_at(filed: &[Filed], k: usize) -> Option<u32>
    ensures { result ≡ option_map (λ one. one.rank) (slice_get filed.now k) }
{
    match filed.get(k) {
        Some(one) => Some(one.rank),
        None => None,
    }
}
