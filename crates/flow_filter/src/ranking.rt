//! The order in which filters are asked.
ghost use Rattle.std.specs.Prelude.{◌≡◌, ◌<◌, ℕ, IfOk, length, option_copied, slice_index};
ghost use Rattle.flow_filter.specs.Ranked.{IsRanked, filter_at, ruleno_at};

use conf_tree::Filter;
use play_base::NoMemory;
use std::alloc::Global;
use std::cmp::Reverse;

/// The rule number of the filter at a place, 0 past the end.
fn ruleno_at(filters: &[Filter], place: u32) -> u32
    ensures { result ≡ ruleno_at filters.now place }
{
    match filters.get(place as usize) {
        Some(filter) => filter.ruleno,
        None => 0,
    }
}

/// The numbers from 0 up to a count.
fn counted(alloc: Global, count: u32) -> Result<Vec<u32>, NoMemory>
    ensures long { IfOk result (λ places. length places.items ≡ count) }
    ensures each { IfOk result (λ places. (k : ℕ) → k < count → slice_index places.items k ≡ k) }
{
    let mut places = Vec::new(alloc);
    for place in 0..count {
        places.push(place)?;
    }
    Ok(places)
}

/// The places of filters in the order in which they are asked.
pub(crate) fn ranked(alloc: Global, filters: &[Filter]) -> Result<Vec<u32>, NoMemory>
    ensures { IfOk result (λ places. IsRanked filters.now places.items) }
{
    let Ok(count) = u32::try_from(filters.len()) else {
        return Err(NoMemory);
    };
    let mut places = counted(alloc, count)?;
    places.sort_by_key(|place| Reverse(ruleno_at(filters, *place)))?;
    Ok(places)
}

/// The filter that is asked at position `rank`, from 0.
pub(crate) fn filter_at<'a>(filters: &'a [Filter], places: &[u32], rank: u32) -> Option<&'a Filter>
    ensures { option_copied result ≡ filter_at filters.now places.now rank }
{
    match places.get(rank as usize) {
        Some(place) => filters.get(*place as usize),
        None => None,
    }
}
