//! What the canonical line of a filter says.
ghost use Rattle.std.specs.Prelude.{◌≡◌, ◌∷◌, ◌++◌, [], IfOk, OnOk};
ghost use Rattle.conf_tree.specs.Canonical.{tos_whats, end4_whats, end6_whats, parts_whats, filter_line};

use crate::class::Class;
use crate::class_items::{class_word, push, push_name, push_with};
use crate::filter::{Addresses, Filter};
use conf_lines::{Key, What};
use play_base::NoMemory;
use std::alloc::Global;

/// Adds an IPv4 address with its mask, and its port.
fn push_end4(
    whats: &mut Vec<What>,
    address: [u8; 4],
    mask: [u8; 4],
    port: u16,
) -> Result<(), NoMemory>
    ensures { OnOk result (whats.new.items ≡ whats.old.items ++ end4_whats address mask port) }
{
    push(whats, What::Ip4(address))?;
    push_with(whats, Key::Netmask, What::Ip4(mask))?;
    push(whats, What::Whole(u64::from(port)))
}

/// Adds an IPv6 address with its prefix length, and its port.
fn push_end6(whats: &mut Vec<What>, address: [u8; 16], bits: u8, port: u16) -> Result<(), NoMemory>
    ensures { OnOk result (whats.new.items ≡ whats.old.items ++ end6_whats address bits port) }
{
    push(whats, What::Ip6(address, bits))?;
    push(whats, What::Whole(u64::from(port)))
}

/// Adds a type of service and its mask, where given.
fn push_tos(
    whats: &mut Vec<What>,
    key: Key,
    mask_key: Key,
    tos: Option<(u8, u8)>,
) -> Result<(), NoMemory>
    ensures { OnOk result (whats.new.items ≡ whats.old.items ++ tos_whats key mask_key tos) }
{
    if let Some((tos, mask)) = tos {
        push_with(whats, key, What::Whole(u64::from(tos)))?;
        push_with(whats, mask_key, What::Whole(u64::from(mask)))?;
    }
    Ok(())
}

/// Adds what a filter matches.
fn push_parts(whats: &mut Vec<What>, filter: &Filter) -> Result<(), NoMemory>
    ensures { OnOk result (whats.new.items ≡ whats.old.items ++ parts_whats filter.now filter.now.addresses) }
{
    match filter.addresses {
        Addresses::V4 {
            target,
            target_mask,
            source,
            source_mask,
        } => {
            push_end4(whats, target, target_mask, filter.target_port)?;
            push_end4(whats, source, source_mask, filter.source_port)?;
            push(whats, What::Whole(u64::from(filter.protocol)))?;
            push_tos(whats, Key::Tos, Key::Tosmask, filter.tos)
        }
        Addresses::V6 {
            target,
            target_len,
            source,
            source_len,
        } => {
            push_end6(whats, target, target_len, filter.target_port)?;
            push_end6(whats, source, source_len, filter.source_port)?;
            push(whats, What::Whole(u64::from(filter.protocol)))?;
            push_tos(whats, Key::Tclass, Key::Tclassmask, filter.tos)
        }
    }
}

/// What the line of a filter says: its names, its rule number, and what it matches.
pub(crate) fn filter_whats(
    alloc: Global,
    interface: &str,
    all: &[Class],
    filter: &Filter,
) -> Result<Vec<What>, NoMemory>
    ensures { IfOk result (λ whats. whats.items ≡ (filter_line interface.now all.now filter.now).whats) }
{
    let mut whats = Vec::new(alloc);
    push_name(alloc, &mut whats, interface)?;
    push_name(alloc, &mut whats, class_word(all, filter.class))?;
    let ruleno = What::Whole(u64::from(filter.ruleno));
    push_with(&mut whats, Key::Ruleno, ruleno)?;
    push_parts(&mut whats, filter)?;
    Ok(whats)
}
