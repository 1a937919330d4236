//! The end of the text.
ghost use Rattle.std.specs.Prelude.{◌≡◌, ◌∷◌, ◌++◌, [], IfOk, OnOk, Some, None, map};
ghost use Rattle.conf_tree.specs.Whole.{implied_hfsc, implied_cbq, implied, implied_classes, classes_of, whole, undecided, first_undecided};

use crate::branch::{Branch, text_of};
use crate::class::Class;
use crate::draft::Draft;
use crate::interface::{ClassList, FilterList, Interface, Kind};
use crate::places::fault_at;
use crate::settings::{Settings, class_of, of_kind, unset};
use conf_lines::{ConfKind, ConfPlace, Text};
use play_base::NoMemory;
use service_curve::Curve;
use std::alloc::Global;

/// A class of HFSC that no statement names.
fn implied_hfsc(name: Text, parent: Option<u32>, share: Option<Curve>) -> Class
    ensures { result ≡ implied_hfsc name parent share }
{
    let settings = Settings {
        share,
        is_default: parent.is_some(),
        ..of_kind(Kind::Hfsc, unset())
    };
    class_of(name, parent, 0, settings)
}

/// A class of CBQ that no statement names.
fn implied_cbq(name: Text, parent: Option<u32>, rate: u64) -> Class
    ensures { result ≡ implied_cbq name parent rate }
{
    let settings = Settings {
        borrow: parent.is_some(),
        is_default: parent.is_some(),
        ..of_kind(Kind::Cbq, unset())
    };
    class_of(name, parent, rate, settings)
}

/// A class that no statement names, on an interface of this kind and bandwidth.
fn implied(kind: Kind, name: Text, parent: Option<u32>, rate: u64) -> Class
    ensures { result ≡ implied kind name parent rate }
{
    let line = Curve {
        m1: rate,
        d: 0,
        m2: rate,
    };
    match kind {
        Kind::Hfsc if parent.is_none() => implied_hfsc(name, parent, None),
        Kind::Hfsc => implied_hfsc(name, parent, Some(line)),
        Kind::Cbq => implied_cbq(name, parent, rate),
    }
}

/// Adds a class that no statement names.
fn push_implied(
    alloc: Global,
    classes: &mut Vec<Class>,
    kind: Kind,
    name: &str,
    parent: Option<u32>,
    rate: u64,
) -> Result<(), NoMemory>
    ensures { OnOk result (classes.new.items ≡ classes.old.items ++ implied kind name.now parent rate ∷ []) }
{
    let name = text_of(alloc, name)?;
    match classes.push(implied(kind, name, parent, rate)) {
        Ok(()) => Ok(()),
        Err(_) => Err(NoMemory),
    }
}

/// The two implied classes of an interface.
fn implied_classes(alloc: Global, kind: Kind, rate: u64) -> Result<Vec<Class>, NoMemory>
    ensures { IfOk result (λ classes. classes.items ≡ implied_classes kind rate) }
{
    let mut classes = Vec::new(alloc);
    push_implied(alloc, &mut classes, kind, "root", None, rate)?;
    push_implied(alloc, &mut classes, kind, "default", Some(0), rate)?;
    Ok(classes)
}

/// The classes without what later statements asked of them.
fn bare_classes(alloc: Global, branches: Vec<Branch>) -> Result<Vec<Class>, NoMemory>
    ensures { IfOk result (λ classes. classes.items ≡ map (λ b. b.class) branches.items) }
{
    let mut classes = Vec::new(alloc);
    for branch in branches {
        let Branch { class, .. } = branch;
        classes.push(class)?;
    }
    Ok(classes)
}

/// The classes of an interface at the end of the text.
fn classes_of(
    alloc: Global,
    kind: Kind,
    rate: u64,
    branches: Vec<Branch>,
) -> Result<Vec<Class>, NoMemory>
    ensures { IfOk result (λ classes. classes.items ≡ classes_of kind rate branches.items) }
{
    if branches.is_empty() {
        implied_classes(alloc, kind, rate)
    } else {
        bare_classes(alloc, branches)
    }
}

/// An interface at the end of the text.
pub(crate) fn whole(alloc: Global, draft: Draft) -> Result<Interface, NoMemory>
    ensures { IfOk result (λ interface. interface ≡ whole draft.entry) }
{
    let name = text_of(alloc, draft.name)?;
    let (rate, kind) = (draft.rate, draft.kind);
    let (branches, filters) = draft.into_parts();
    let none_written = branches.is_empty();
    let classes = classes_of(alloc, kind, rate, branches)?;
    Ok(Interface {
        name,
        rate,
        kind,
        implied: none_written,
        classes: ClassList::of(classes),
        filters: FilterList::of(filters),
    })
}

/// The fault of the first interface that has classes and no default.
pub(crate) fn first_undecided(drafts: &[Draft]) -> Option<ConfPlace>
    ensures { result ≡ first_undecided drafts.now }
{
    for draft in drafts {
        if !draft.classes.is_empty() && !draft.chosen {
            return Some(fault_at(draft.line, 0, ConfKind::NoDefault));
        }
    }
    None
}

/// The interfaces at the end of the text.
pub(crate) fn whole_all(alloc: Global, drafts: Vec<Draft>) -> Result<Vec<Interface>, NoMemory>
    ensures { IfOk result (λ interfaces. interfaces.items ≡ map whole drafts.entry.items) }
{
    let mut interfaces = Vec::new(alloc);
    for draft in drafts {
        let interface = whole(alloc, draft)?;
        interfaces.push(interface)?;
    }
    Ok(interfaces)
}
