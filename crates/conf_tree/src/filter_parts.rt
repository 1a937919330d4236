//! The parts of a filter.
ghost use Rattle.std.specs.Prelude.{◌≡◌, ◌≤◌, ◌-◌, ◌^◌, IfSome, drop};
ghost use Rattle.conf_tree.specs.Filters.{has_option, has_name, past_option, past_name, option_number, part, mask_in, address4, address6, addresses, tos_in, filter_of};

use crate::filter::{Addresses, Filter};
use crate::items::{number_at, past};
use crate::masks::{masked, prefix};
use conf_lines::{Form, Item, MOST_PORT, MOST_PROTOCOL, MOST_RULENO, MOST_TOS, What};

/// Whether an option's word stands first.
fn has_option(items: &[Item]) -> bool
    ensures { result ≡ has_option items.now }
{
    matches!(
        items.get(0),
        Some(Item {
            what: What::Key(_),
            ..
        })
    )
}

/// Whether `name` and its WORD stand first.
fn has_name(items: &[Item]) -> bool
    ensures { result ≡ has_name items.now }
{
    has_option(items)
        && matches!(
            items.get(1),
            Some(Item {
                what: What::Skipped,
                ..
            })
        )
}

fn past_option(items: &[Item]) -> &[Item]
    ensures { result.now ≡ past_option items.now }
{
    if has_option(items) {
        past(items, 2)
    } else {
        items
    }
}

fn past_name(items: &[Item]) -> &[Item]
    ensures { result.now ≡ past_name items.now }
{
    if has_name(items) {
        past(items, 2)
    } else {
        items
    }
}

/// The number of an option, if one stands first.
fn option_number(most: u64, items: &[Item]) -> Option<u64>
    ensures value { result ≡ option_number most items.now }
    ensures high { IfSome result (λ n. n ≤ most) }
{
    if has_option(items) {
        number_at(0, most, items, 1)
    } else {
        None
    }
}

/// The number that stands first; 0 where none does.
fn part(most: u64, items: &[Item]) -> u64
    ensures value { result ≡ part most items.now }
    ensures high { result ≤ most }
{
    match number_at(0, most, items, 0) {
        Some(n) => n,
        None => 0,
    }
}

/// The mask behind an IPv4 address.
fn mask_in(items: &[Item]) -> [u8; 4]
    ensures { result ≡ mask_in items.now }
{
    if !has_option(items) {
        return [255; 4];
    }
    match items.get(1) {
        Some(
            Item {
                what: What::Ip4(mask),
                ..
            },
        ) => *mask,
        _ => [255; 4],
    }
}

/// An IPv4 address under its mask, and its mask.
fn address4(items: &[Item]) -> ([u8; 4], [u8; 4])
    ensures { result ≡ address4 items.now }
{
    match items.get(0) {
        Some(
            Item {
                what: What::Ip4(address),
                ..
            },
        ) => {
            let mask = mask_in(past(items, 1));
            (masked(*address, mask), mask)
        }
        _ => ([0; 4], [0; 4]),
    }
}

/// The prefix of an IPv6 address, and its length.
fn address6(items: &[Item]) -> ([u8; 16], u8)
    ensures { result ≡ address6 items.now }
{
    match items.get(0) {
        Some(
            Item {
                what: What::Ip6(address, bits),
                ..
            },
        ) => (prefix(*bits, address), *bits),
        _ => ([0; 16], 0),
    }
}

/// Both addresses, by the items from each on.
fn addresses(form: Form, target: &[Item], source: &[Item]) -> Addresses
    ensures { result ≡ addresses form target.now source.now }
{
    match form {
        Form::Filter6 => {
            let (target, target_len) = address6(target);
            let (source, source_len) = address6(source);
            Addresses::V6 {
                target,
                target_len,
                source,
                source_len,
            }
        }
        _ => {
            let (target, target_mask) = address4(target);
            let (source, source_mask) = address4(source);
            Addresses::V4 {
                target,
                target_mask,
                source,
                source_mask,
            }
        }
    }
}

/// The TOS or traffic class under its mask, and its mask.
fn tos_in(items: &[Item]) -> Option<(u8, u8)>
    ensures { result ≡ tos_in items.now }
{
    let mask = match option_number(MOST_TOS, past_option(items)) {
        Some(mask) => mask as u8,
        None => 255,
    };
    match option_number(MOST_TOS, items) {
        Some(tos) => Some((tos as u8 & mask, mask)),
        None => None,
    }
}

/// The filter of a class, by the items behind the class's name.
pub(crate) fn filter_of(form: Form, class: u32, items: &[Item]) -> Filter
    ensures { result ≡ filter_of form class items.now }
{
    let numbered = past_name(items);
    let target = past_option(numbered);
    let target_port = past_option(past(target, 1));
    let source = past(target_port, 1);
    let source_port = past_option(past(source, 1));
    let protocol = past(source_port, 1);
    let ruleno = match option_number(MOST_RULENO, numbered) {
        Some(ruleno) => ruleno as u32,
        None => 0,
    };
    Filter {
        class,
        ruleno,
        addresses: addresses(form, target, source),
        target_port: part(MOST_PORT, target_port) as u16,
        source_port: part(MOST_PORT, source_port) as u16,
        protocol: part(MOST_PROTOCOL, protocol) as u8,
        tos: tos_in(past(protocol, 1)),
    }
}
