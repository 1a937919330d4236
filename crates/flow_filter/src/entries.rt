//! The entries of filters that are filed side by side, and the first of a stretch that fits a flow.
ghost use Rattle.std.specs.Prelude.{◌≡◌, IfOk, Some, length};
ghost use Rattle.flow_filter.specs.Entries.{StandFor, fits_at, takes_4, takes_6, takes_at};
ghost use Rattle.flow_filter.specs.Search.{IsFirstFit};
ghost use Rattle.flow_filter.specs.declared.numbers.Numbers.TheVariants as numbers;
ghost use Rattle.flow_filter.specs.declared.ports.Version.TheVariants as version;

use crate::entry::{Entry4, Entry6, entry_4, entry_6};
use crate::matching::{fits_4, fits_6};
use crate::numbers::{Numbers, Numbers4, Numbers6};
use crate::ports::{Filed, Version};
use crate::ranking::filter_at;
use conf_tree::Filter;
use play_base::NoMemory;
use std::alloc::Global;

/// The entries of filters of one version.
#[derive(Drop)]
pub enum Entries {
    V4(Vec<Entry4>),
    V6(Vec<Entry6>),
}

/// The entries of IPv4 of the filters that are filed, in the same order.
fn entries_4(
    alloc: Global,
    filters: &[Filter],
    places: &[u32],
    filed: &[Filed],
) -> Result<Vec<Entry4>, NoMemory>
    ensures { IfOk result (λ xs. StandFor version.V4 filters.now places.now filed.now (takes_at takes_4 xs.items) (length filed.now)) }
{
    let mut entries = Vec::new(alloc);
    for one in filed {
        entries.push(entry_4(filter_at(filters, places, one.rank)))?;
    }
    Ok(entries)
}

/// The same of IPv6.
fn entries_6(
    alloc: Global,
    filters: &[Filter],
    places: &[u32],
    filed: &[Filed],
) -> Result<Vec<Entry6>, NoMemory>
    ensures { IfOk result (λ xs. StandFor version.V6 filters.now places.now filed.now (takes_at takes_6 xs.items) (length filed.now)) }
{
    let mut entries = Vec::new(alloc);
    for one in filed {
        entries.push(entry_6(filter_at(filters, places, one.rank)))?;
    }
    Ok(entries)
}

/// The first entry of IPv4 in a stretch that fits a flow.
fn first_of_4(entries: &[Entry4], flow: &Numbers4, start: usize, end: usize) -> Option<usize>
    ensures { IsFirstFit (takes_at takes_4 entries.now (Some (numbers.V4 flow.now))) start end result }
{
    for k in start..end.min(entries.len()) {
        if fits_4(&entries[k], flow) {
            return Some(k);
        }
    }
    None
}

/// The same of IPv6.
fn first_of_6(entries: &[Entry6], flow: &Numbers6, start: usize, end: usize) -> Option<usize>
    ensures { IsFirstFit (takes_at takes_6 entries.now (Some (numbers.V6 flow.now))) start end result }
{
    for k in start..end.min(entries.len()) {
        if fits_6(&entries[k], flow) {
            return Some(k);
        }
    }
    None
}

impl Entries {
    /// The entries of a version of the filters that are filed, in the same order.
    pub(crate) fn build(
        alloc: Global,
        version: Version,
        filters: &[Filter],
        places: &[u32],
        filed: &[Filed],
    ) -> Result<Entries, NoMemory>
        ensures { IfOk result (λ entries. StandFor version filters.now places.now filed.now (fits_at entries) (length filed.now)) }
    {
        match version {
            Version::V4 => match entries_4(alloc, filters, places, filed) {
                Ok(entries) => Ok(Entries::V4(entries)),
                Err(error) => Err(error),
            },
            Version::V6 => match entries_6(alloc, filters, places, filed) {
                Ok(entries) => Ok(Entries::V6(entries)),
                Err(error) => Err(error),
            },
        }
    }

    /// The first entry in a stretch that fits a flow. Those of one version fit no flow of the other.
    pub(crate) fn first_fit(&self, flow: &Numbers, start: usize, end: usize) -> Option<usize>
        ensures { IsFirstFit (fits_at self.now (Some flow.now)) start end result }
    {
        match self {
            Entries::V4(entries) => match flow {
                Numbers::V4(flow) => first_of_4(entries.as_slice(), flow, start, end),
                Numbers::V6(_) => None,
            },
            Entries::V6(entries) => match flow {
                Numbers::V4(_) => None,
                Numbers::V6(flow) => first_of_6(entries.as_slice(), flow, start, end),
            },
        }
    }
}
