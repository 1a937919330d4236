//! Filters under the ports that they fix.
ghost use Rattle.std.specs.Prelude.{◌≡◌, ◌<◌, ◌≤◌, ◌+◌, ◌^◌, ℕ, IfOk, length, option_and_then, true};
ghost use Rattle.flow_filter.specs.Filed.{HoldsAll, IsFiledByRank, EntriesAreInOrder, port_in, port_on, version_of};
ghost use Rattle.flow_filter.specs.Ranked.{filter_at};
ghost use Rattle.flow_filter.specs.Search.{BeginsAt, IsStretch, is_at};

use crate::ranking::filter_at;
use conf_tree::{Addresses, Filter};
use play_base::NoMemory;
use std::alloc::Global;

/// A filter under a port, by its number in the order in which filters are asked.
#[derive(Clone, Copy)]
pub struct Filed {
    pub port: u16,
    pub rank: u32,
}

/// Where the filters under a port begin and where they end.
#[derive(Clone, Copy)]
pub struct Stretch {
    pub port: u16,
    pub start: usize,
    pub end: usize,
}

/// The side whose port a filter is filed under.
#[derive(Clone, Copy)]
pub enum Side {
    Target,
    Source,
}

/// The version of IP whose flows a filter matches.
#[derive(Clone, Copy)]
pub enum Version {
    V4,
    V6,
}

/// The filters of a version that are filed on a side.
#[derive(Clone, Copy)]
pub struct Group {
    pub version: Version,
    pub side: Side,
}

/// The port under which a filter is filed on a side, if it is.
fn port_on(side: Side, filter: &Filter) -> Option<u16>
    ensures { result ≡ port_on side filter.now }
{
    match side {
        Side::Target if filter.target_port != 0 => Some(filter.target_port),
        Side::Source if filter.target_port == 0 => Some(filter.source_port),
        _ => None,
    }
}

/// The port under which a filter is filed in a group, if it is.
fn port_in(group: Group, filter: &Filter) -> Option<u16>
    ensures { result ≡ port_in group filter.now }
{
    match group.version {
        Version::V4 => match &filter.addresses {
            Addresses::V4 { .. } => port_on(group.side, filter),
            Addresses::V6 { .. } => None,
        },
        Version::V6 => match &filter.addresses {
            Addresses::V4 { .. } => None,
            Addresses::V6 { .. } => port_on(group.side, filter),
        },
    }
}

/// The port under which the filter that is asked at position `rank` is filed in a group.
fn port_at(group: Group, filters: &[Filter], places: &[u32], rank: u32) -> Option<u16>
    ensures { result ≡ option_and_then (port_in group) (filter_at filters.now places.now rank) }
{
    match filter_at(filters, places, rank) {
        Some(filter) => port_in(group, filter),
        None => None,
    }
}

/// The filters that are filed in a group, in the order in which they are asked.
fn filed_by_rank(
    alloc: Global,
    group: Group,
    filters: &[Filter],
    places: &[u32],
) -> Result<Vec<Filed>, NoMemory>
    ensures { IfOk result (λ entries. IsFiledByRank filters.now places.now group (length places.now) entries.items) }
{
    let Ok(count) = u32::try_from(places.len()) else {
        return Err(NoMemory);
    };
    let mut entries = Vec::new(alloc);
    for rank in 0..count {
        if let Some(port) = port_at(group, filters, places, rank) {
            entries.push(Filed { port, rank })?;
        }
    }
    Ok(entries)
}

/// The filters that are filed in a group, in the order of their ports, and of those with one port in the order in which they
/// are asked.
pub(crate) fn filed_by_port(
    alloc: Global,
    group: Group,
    filters: &[Filter],
    places: &[u32],
) -> Result<Vec<Filed>, NoMemory>
    ensures order { IfOk result (λ entries. EntriesAreInOrder entries.items) }
    ensures all { IfOk result (λ entries. HoldsAll filters.now places.now group entries.items) }
{
    let mut entries = filed_by_rank(alloc, group, filters, places)?;
    entries.sort_by_key(|entry| entry.port)?;
    Ok(entries)
}

/// Whether a filter of a port stands at a place, which is then not the last number.
fn is_at(filed: &[Filed], port: u16, place: usize) -> bool
    ensures value { result ≡ is_at filed.now port place }
    ensures next { result ≡ true → place + 1 < 2 ^ 64 }
{
    place < filed.len() && filed[place].port == port
}

/// Where those of a port end that begin at a place. Most ports have no filter or one, so these are tried before a search.
fn end_of(filed: &[Filed], port: u16, start: usize) -> usize
    ensures { EntriesAreInOrder filed.now → BeginsAt filed.now port start → IsStretch filed.now port start result }
{
    if !is_at(filed, port, start) {
        return start;
    }
    if !is_at(filed, port, start + 1) {
        return start + 1;
    }
    filed.partition_point(|one| one.port <= port)
}

/// Where those of a port begin.
fn start_of(filed: &[Filed], port: u16) -> usize
    ensures { EntriesAreInOrder filed.now → BeginsAt filed.now port result }
{
    filed.partition_point(|one| one.port < port)
}

/// The stretch of a port among filters in the order of their ports, by a search.
pub(crate) fn search(filed: &[Filed], port: u16) -> Stretch
    ensures port { result.port ≡ port }
    ensures places { EntriesAreInOrder filed.now → IsStretch filed.now port result.start result.end }
{
    let start = start_of(filed, port);
    Stretch {
        port,
        start,
        end: end_of(filed, port, start),
    }
}
