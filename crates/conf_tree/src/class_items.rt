//! What the canonical line of a class says.
ghost use Rattle.std.specs.Prelude.{◌≡◌, ◌∷◌, ◌++◌, [], IfOk, OnOk};
ghost use Rattle.conf_tree.specs.Canonical.{class_word, parent_word, key_where, drop_whats, curve_whats, class_names, queue_options, hfsc_options, cbq_options, class_options, class_line};

use crate::branch::text_of;
use crate::class::{Class, DropRule};
use crate::interface::Kind;
use conf_lines::{Key, What};
use play_base::NoMemory;
use service_curve::Curve;
use std::alloc::Global;

/// The name of the class of a number; `NULL` where there is none.
pub(crate) fn class_word(classes: &[Class], number: u32) -> &str
    ensures { result.now ≡ class_word classes.now number }
{
    match classes.get(number as usize) {
        Some(class) => class.name.as_str(),
        None => "NULL",
    }
}

fn parent_word(classes: &[Class], parent: Option<u32>) -> &str
    ensures { result.now ≡ parent_word classes.now parent }
{
    match parent {
        Some(number) => class_word(classes, number),
        None => "NULL",
    }
}

/// Adds what a word says.
pub(crate) fn push(whats: &mut Vec<What>, what: What) -> Result<(), NoMemory>
    ensures { OnOk result (whats.new.items ≡ whats.old.items ++ what ∷ []) }
{
    match whats.push(what) {
        Ok(()) => Ok(()),
        Err(_) => Err(NoMemory),
    }
}

/// Adds a name.
pub(crate) fn push_name(alloc: Global, whats: &mut Vec<What>, name: &str) -> Result<(), NoMemory>
    ensures { OnOk result (whats.new.items ≡ whats.old.items ++ What.Name name.now ∷ []) }
{
    match text_of(alloc, name) {
        Ok(text) => push(whats, What::Name(text)),
        Err(NoMemory) => Err(NoMemory),
    }
}

/// Adds an option with its number.
pub(crate) fn push_with(whats: &mut Vec<What>, key: Key, number: What) -> Result<(), NoMemory>
    ensures { OnOk result (whats.new.items ≡ whats.old.items ++ What.Key key ∷ number ∷ []) }
{
    push(whats, What::Key(key))?;
    push(whats, number)
}

/// Adds an option if `holds`.
fn push_where(whats: &mut Vec<What>, key: Key, holds: bool) -> Result<(), NoMemory>
    ensures { OnOk result (whats.new.items ≡ whats.old.items ++ key_where key holds) }
{
    if holds {
        push(whats, What::Key(key))?;
    }
    Ok(())
}

fn push_drop(whats: &mut Vec<What>, rule: DropRule) -> Result<(), NoMemory>
    ensures { OnOk result (whats.new.items ≡ whats.old.items ++ drop_whats rule) }
{
    match rule {
        DropRule::Tail => Ok(()),
        DropRule::Red => push(whats, What::Key(Key::Red)),
        DropRule::Ecn => push(whats, What::Key(Key::Ecn)),
        DropRule::Rio => push(whats, What::Key(Key::Rio)),
    }
}

/// Adds a curve, its bend in milliseconds.
fn push_curve(whats: &mut Vec<What>, key: Key, curve: Option<Curve>) -> Result<(), NoMemory>
    ensures { OnOk result (whats.new.items ≡ whats.old.items ++ curve_whats key curve) }
{
    if let Some(curve) = curve {
        push_with(whats, key, What::Rate(curve.m1))?;
        push(whats, What::Whole(curve.d / 1_000_000))?;
        push(whats, What::Rate(curve.m2))?;
    }
    Ok(())
}

/// Adds the options of a queue.
fn push_queue(whats: &mut Vec<What>, class: &Class) -> Result<(), NoMemory>
    ensures { OnOk result (whats.new.items ≡ whats.old.items ++ queue_options class.now) }
{
    push_with(whats, Key::Qlimit, What::Whole(u64::from(class.limit)))?;
    push_drop(whats, class.drop)?;
    push_where(whats, Key::Cleardscp, class.clear)
}

fn push_hfsc(whats: &mut Vec<What>, class: &Class) -> Result<(), NoMemory>
    ensures { OnOk result (whats.new.items ≡ whats.old.items ++ hfsc_options class.now) }
{
    push_curve(whats, Key::Rt, class.real)?;
    push_curve(whats, Key::Ls, class.share)?;
    push_curve(whats, Key::Ul, class.upper)?;
    push_queue(whats, class)?;
    push_where(whats, Key::Default, class.is_default)
}

fn push_cbq(whats: &mut Vec<What>, class: &Class) -> Result<(), NoMemory>
    ensures { OnOk result (whats.new.items ≡ whats.old.items ++ cbq_options class.now) }
{
    push_with(whats, Key::Priority, What::Whole(u64::from(class.priority)))?;
    push_with(whats, Key::Exactbandwidth, What::Rate(class.rate))?;
    push_where(whats, Key::Borrow, class.borrow)?;
    push_with(whats, Key::Maxburst, What::Whole(u64::from(class.maxburst)))?;
    let packetsize = What::Whole(u64::from(class.packetsize));
    push_with(whats, Key::Packetsize, packetsize)?;
    push_queue(whats, class)?;
    push_where(whats, Key::Control, class.control)?;
    push_where(whats, Key::Default, class.is_default)
}

/// What the line of a class says: its names, and its options.
pub(crate) fn class_whats(
    alloc: Global,
    kind: Kind,
    interface: &str,
    all: &[Class],
    class: &Class,
) -> Result<Vec<What>, NoMemory>
    ensures { IfOk result (λ whats. whats.items ≡ (class_line kind interface.now all.now class.now).whats) }
{
    let mut whats = Vec::new(alloc);
    push_name(alloc, &mut whats, interface)?;
    push_name(alloc, &mut whats, class.name.as_str())?;
    push_name(alloc, &mut whats, parent_word(all, class.parent))?;
    match kind {
        Kind::Hfsc => push_hfsc(&mut whats, class)?,
        Kind::Cbq => push_cbq(&mut whats, class)?,
    }
    Ok(whats)
}
