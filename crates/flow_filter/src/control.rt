//! The filters that `control` adds, and the default class.
ghost use Rattle.std.specs.Prelude.{◌≡◌, ◌++◌, IfOk, OnOk};
ghost use Rattle.flow_filter.specs.Rules.{control_filters, default_class, filters_of_control, protocol_filter};

use conf_tree::{Addresses, Class, Filter};
use play_base::NoMemory;

const ICMP: u8 = 1;

const IGMP: u8 = 2;

const RSVP: u8 = 46;

const ICMPV6: u8 = 58;

/// Every address of IPv4.
const EVERY_4: Addresses = Addresses::V4 {
    target: [0; 4],
    target_mask: [0; 4],
    source: [0; 4],
    source_mask: [0; 4],
};

/// Every address of IPv6.
const EVERY_6: Addresses = Addresses::V6 {
    target: [0; 16],
    target_len: 0,
    source: [0; 16],
    source_len: 0,
};

/// A filter of rule number 0 that matches every flow of a protocol over those addresses.
fn protocol_filter(class: u32, addresses: Addresses, protocol: u8) -> Filter
    ensures { result ≡ protocol_filter class addresses protocol }
{
    Filter {
        class,
        ruleno: 0,
        addresses,
        target_port: 0,
        source_port: 0,
        protocol,
        tos: None,
    }
}

/// The filters that a class with `control` adds.
fn filters_of_control(class: u32) -> [Filter; 4]
    ensures { result ≡ filters_of_control class }
{
    [
        protocol_filter(class, EVERY_4, ICMP),
        protocol_filter(class, EVERY_4, IGMP),
        protocol_filter(class, EVERY_4, RSVP),
        protocol_filter(class, EVERY_6, ICMPV6),
    ]
}

/// Adds the filters of each class with `control`.
pub(crate) fn push_control(filters: &mut Vec<Filter>, classes: &[Class]) -> Result<(), NoMemory>
    ensures { OnOk result (filters.new.items ≡ filters.old.items ++ control_filters classes.now) }
{
    for (number, class) in classes.iter().enumerate() {
        if class.control {
            let Ok(number) = u32::try_from(number) else {
                return Err(NoMemory);
            };
            filters.extend_from_slice(&filters_of_control(number))?;
        }
    }
    Ok(())
}

/// The place of the default class among the classes.
fn default_place(classes: &[Class]) -> usize
    ensures { result ≡ default_class classes.now }
{
    classes
        .iter()
        .position(|class| class.is_default)
        .unwrap_or(0)
}

/// The number of the default class.
pub(crate) fn default_class(classes: &[Class]) -> Result<u32, NoMemory>
    ensures { IfOk result (λ number. number ≡ default_class classes.now) }
{
    match u32::try_from(default_place(classes)) {
        Ok(number) => Ok(number),
        Err(_) => Err(NoMemory),
    }
}
