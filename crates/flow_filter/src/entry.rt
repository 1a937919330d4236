//! A filter in numbers, made once, so that a filter that does not match costs a few loads and compares.
ghost use Rattle.std.specs.Prelude.{◌≡◌, Some, option_copied};
ghost use Rattle.flow_filter.specs.Entries.{Represents4, Represents6, rest_of};
ghost use Rattle.flow_filter.specs.Numbers.{first_ones};

use crate::numbers::{number_4, number_6};
use conf_tree::{Addresses, Filter};

/// What a filter fixes besides addresses, as in `Filter`.
#[derive(Clone, Copy)]
pub struct Rest {
    pub target_port: u16,
    pub source_port: u16,
    pub protocol: u8,
    pub tos: Option<(u8, u8)>,
}

/// A filter of IPv4 in numbers.
#[derive(Clone, Copy)]
pub struct Entry4 {
    pub target: u32,
    pub target_mask: u32,
    pub source: u32,
    pub source_mask: u32,
    pub rest: Rest,
}

/// A filter of IPv6 in numbers, each prefix length as the mask of that many first bits.
#[derive(Clone, Copy)]
pub struct Entry6 {
    pub target: u128,
    pub target_mask: u128,
    pub source: u128,
    pub source_mask: u128,
    pub rest: Rest,
}

/// What fixes nothing besides addresses.
const ANY: Rest = Rest {
    target_port: 0,
    source_port: 0,
    protocol: 0,
    tos: None,
};

/// The entry that no flow of IPv4 fits: under a mask of 0 no address is 1.
const NOTHING_4: Entry4 = Entry4 {
    target: 1,
    target_mask: 0,
    source: 0,
    source_mask: 0,
    rest: ANY,
};

/// The entry that no flow of IPv6 fits.
const NOTHING_6: Entry6 = Entry6 {
    target: 1,
    target_mask: 0,
    source: 0,
    source_mask: 0,
    rest: ANY,
};

/// What a filter fixes besides addresses.
fn rest_of(filter: &Filter) -> Rest
    ensures { result ≡ rest_of filter.now }
{
    Rest {
        target_port: filter.target_port,
        source_port: filter.source_port,
        protocol: filter.protocol,
        tos: filter.tos,
    }
}

/// The number whose first `bits` of 128 bits are 1; each is, past 128.
fn first_ones(bits: u8) -> u128
    ensures { result ≡ first_ones bits }
{
    if bits == 0 {
        0
    } else {
        u128::MAX << (128 - bits.min(128))
    }
}

/// The entry of a filter among those of IPv4; one of IPv6 matches no flow there.
fn entry_of_4(filter: &Filter) -> Entry4
    ensures { Represents4 result (Some filter.now) }
{
    match &filter.addresses {
        Addresses::V4 {
            target,
            target_mask,
            source,
            source_mask,
        } => Entry4 {
            target: number_4(target),
            target_mask: number_4(target_mask),
            source: number_4(source),
            source_mask: number_4(source_mask),
            rest: rest_of(filter),
        },
        Addresses::V6 { .. } => NOTHING_4,
    }
}

/// The entry of a filter among those of IPv6; one of IPv4 matches no flow there.
fn entry_of_6(filter: &Filter) -> Entry6
    ensures { Represents6 result (Some filter.now) }
{
    match &filter.addresses {
        Addresses::V4 { .. } => NOTHING_6,
        Addresses::V6 {
            target,
            target_len,
            source,
            source_len,
        } => Entry6 {
            target: number_6(target),
            target_mask: first_ones(*target_len),
            source: number_6(source),
            source_mask: first_ones(*source_len),
            rest: rest_of(filter),
        },
    }
}

/// The entry of a filter, if there is one, among those of IPv4.
pub(crate) fn entry_4(filter: Option<&Filter>) -> Entry4
    ensures { Represents4 result (option_copied filter.entry) }
{
    match filter {
        Some(filter) => entry_of_4(filter),
        None => NOTHING_4,
    }
}

/// The same among those of IPv6.
pub(crate) fn entry_6(filter: Option<&Filter>) -> Entry6
    ensures { Represents6 result (option_copied filter.entry) }
{
    match filter {
        Some(filter) => entry_of_6(filter),
        None => NOTHING_6,
    }
}
