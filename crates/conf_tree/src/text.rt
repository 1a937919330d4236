//! The canonical text.
ghost use Rattle.std.specs.Prelude.{◌≡◌, ◌∷◌, ◌++◌, [], IfOk, OnOk, string_bytes};
ghost use Rattle.conf_tree.specs.Printed.{printed};
ghost use Rattle.conf_tree.specs.Canonical.{kind_key, interface_whats, interface_line, class_line, class_lines, filter_line, filter_lines, conditioner_line, meter_lines, conditioner_lines, written_classes, interface_lines, canonical_text};

use crate::class::Class;
use crate::class_items::{class_whats, push, push_name, push_with};
use crate::conditioner_items::conditioner_whats;
use crate::filter::{Addresses, Filter};
use crate::filter_items::filter_whats;
use crate::interface::{Interface, Kind};
use crate::printing::push_line;
use conf_lines::{Key, What};
use play_base::NoMemory;
use std::alloc::Global;
use traffic_meter::MeterRule;

/// What the line of an interface says.
fn interface_whats(alloc: Global, interface: &Interface) -> Result<Vec<What>, NoMemory>
    ensures { IfOk result (λ whats. whats.items ≡ interface_whats interface.now) }
{
    let kind = match interface.kind {
        Kind::Hfsc => Key::Hfsc,
        Kind::Cbq => Key::Cbq,
    };
    let mut whats = Vec::new(alloc);
    push_name(alloc, &mut whats, interface.name.as_str())?;
    push_with(&mut whats, Key::Bandwidth, What::Rate(interface.rate))?;
    push(&mut whats, What::Key(kind))?;
    Ok(whats)
}

/// Writes the first line of an interface.
fn push_first(alloc: Global, out: &mut String, interface: &Interface) -> Result<(), NoMemory>
    ensures { OnOk result (string_bytes out.new ≡ string_bytes out.old ++ printed (interface_line interface.now ∷ [])) }
{
    let whats = interface_whats(alloc, interface)?;
    push_line(alloc, out, "interface", whats.as_slice())?;
    Ok(())
}

/// Writes the line of a class of an interface, all of whose classes are given too.
fn push_class(
    alloc: Global,
    out: &mut String,
    kind: Kind,
    interface: &str,
    all: &[Class],
    class: &Class,
) -> Result<(), NoMemory>
    ensures { OnOk result (string_bytes out.new ≡ string_bytes out.old ++ printed (class_line kind interface.now all.now class.now ∷ [])) }
{
    let first = match kind {
        Kind::Hfsc => "class hfsc",
        Kind::Cbq => "class cbq",
    };
    let whats = class_whats(alloc, kind, interface, all, class)?;
    push_line(alloc, out, first, whats.as_slice())?;
    Ok(())
}

/// Writes the lines of classes of an interface, all of whose classes are given too.
fn push_classes(
    alloc: Global,
    out: &mut String,
    kind: Kind,
    interface: &str,
    all: &[Class],
    written: &[Class],
) -> Result<(), NoMemory>
    ensures { OnOk result (string_bytes out.new ≡ string_bytes out.old ++ printed (class_lines kind interface.now all.now written.now)) }
{
    for class in written {
        push_class(alloc, out, kind, interface, all, class)?;
    }
    Ok(())
}

/// Writes the line of a filter of an interface with these classes.
fn push_filter(
    alloc: Global,
    out: &mut String,
    interface: &str,
    all: &[Class],
    filter: &Filter,
) -> Result<(), NoMemory>
    ensures { OnOk result (string_bytes out.new ≡ string_bytes out.old ++ printed (filter_line interface.now all.now filter.now ∷ [])) }
{
    let first = match filter.addresses {
        Addresses::V4 { .. } => "filter",
        Addresses::V6 { .. } => "filter6",
    };
    let whats = filter_whats(alloc, interface, all, filter)?;
    push_line(alloc, out, first, whats.as_slice())?;
    Ok(())
}

/// Writes the lines of filters of an interface with these classes.
fn push_filters(
    alloc: Global,
    out: &mut String,
    interface: &str,
    all: &[Class],
    filters: &[Filter],
) -> Result<(), NoMemory>
    ensures { OnOk result (string_bytes out.new ≡ string_bytes out.old ++ printed (filter_lines interface.now all.now filters.now)) }
{
    for filter in filters {
        push_filter(alloc, out, interface, all, filter)?;
    }
    Ok(())
}

/// Writes the line of a conditioner of a class.
fn push_conditioner(
    alloc: Global,
    out: &mut String,
    interface: &str,
    class: &str,
    rule: MeterRule,
) -> Result<(), NoMemory>
    ensures { OnOk result (string_bytes out.new ≡ string_bytes out.old ++ printed (conditioner_line interface.now class.now rule ∷ [])) }
{
    let whats = conditioner_whats(alloc, interface, class, rule)?;
    push_line(alloc, out, "conditioner", whats.as_slice())?;
    Ok(())
}

/// Writes the line of the conditioner of a class, if it has one.
fn push_meter(
    alloc: Global,
    out: &mut String,
    interface: &str,
    class: &str,
    meter: Option<MeterRule>,
) -> Result<(), NoMemory>
    ensures { OnOk result (string_bytes out.new ≡ string_bytes out.old ++ printed (meter_lines interface.now class.now meter)) }
{
    match meter {
        Some(rule) => push_conditioner(alloc, out, interface, class, rule),
        None => Ok(()),
    }
}

/// Writes the lines of the conditioners of classes.
fn push_conditioners(
    alloc: Global,
    out: &mut String,
    interface: &str,
    classes: &[Class],
) -> Result<(), NoMemory>
    ensures { OnOk result (string_bytes out.new ≡ string_bytes out.old ++ printed (conditioner_lines interface.now classes.now)) }
{
    for class in classes {
        push_meter(alloc, out, interface, class.name.as_str(), class.meter)?;
    }
    Ok(())
}

/// The classes that are written: none where they are implied.
fn written_classes(interface: &Interface) -> &[Class]
    ensures { result.now ≡ written_classes interface.now }
{
    if interface.implied {
        &[]
    } else {
        interface.classes.as_slice()
    }
}

/// Writes the lines of an interface.
fn push_interface(alloc: Global, out: &mut String, interface: &Interface) -> Result<(), NoMemory>
    ensures { OnOk result (string_bytes out.new ≡ string_bytes out.old ++ printed (interface_lines interface.now)) }
{
    push_first(alloc, out, interface)?;
    let name = interface.name.as_str();
    let all = interface.classes.as_slice();
    let written = written_classes(interface);
    push_classes(alloc, out, interface.kind, name, all, written)?;
    push_filters(alloc, out, name, all, interface.filters.as_slice())?;
    push_conditioners(alloc, out, name, written)?;
    Ok(())
}

/// The canonical text of interfaces.
pub(crate) fn text_of(alloc: Global, interfaces: &[Interface]) -> Result<String, NoMemory>
    ensures { IfOk result (λ text. string_bytes text ≡ canonical_text interfaces.now) }
{
    let mut out = String::new(alloc);
    for interface in interfaces {
        push_interface(alloc, &mut out, interface)?;
    }
    Ok(out)
}
