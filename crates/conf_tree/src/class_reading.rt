//! `class hfsc` and `class cbq`.
ghost use Rattle.std.specs.Prelude.{◌≡◌, IfOk, None};
ghost use Rattle.conf_tree.specs.Answers.{Answers, Gains};
ghost use Rattle.conf_tree.specs.Classes.{is_hfsc, is_queue, below, spot_of, rate_given, rate_at_end, shape_of, branch_of, unnamed_class, read_branch, read_class};
ghost use Rattle.conf_tree.specs.Fits.{Fits};
ghost use Rattle.conf_tree.specs.Tree.{class_number};

use crate::branch::{Branch, branch_of};
use crate::draft::Draft;
use crate::interface::Kind;
use crate::items::{behind, name_at};
use crate::options::set_options;
use crate::places::{at_word, own_fault};
use crate::settings::{ClassDraft, ReadContext, Settings, TreePosition, unset};
use crate::tree::Tree;
use conf_lines::{ConfFault, ConfKind, ConfPlace, Statement};
use play_base::NoMemory;
use std::alloc::Global;

pub(crate) fn is_hfsc(kind: Kind) -> bool
    ensures { result ≡ is_hfsc kind }
{
    match kind {
        Kind::Hfsc => true,
        Kind::Cbq => false,
    }
}

/// Whether a class holds packets, so that it is no parent.
fn is_queue(kind: Kind, branch: &Branch) -> bool
    ensures { result ≡ is_queue kind branch.now }
{
    is_hfsc(kind) && (branch.class.is_default || branch.filtered || branch.class.meter.is_some())
}

/// Below the class of a number.
fn below(
    kind: Kind,
    statement: &Statement,
    number: u32,
    branch: &Branch,
) -> Result<TreePosition, ConfPlace>
    ensures { result ≡ below kind statement.now number branch.now }
{
    if branch.level >= 8 {
        Err(at_word(statement, 5, ConfKind::TooDeep))
    } else if branch.fixed {
        Err(at_word(statement, 5, ConfKind::RealTimeInside))
    } else if is_queue(kind, branch) {
        Err(at_word(statement, 5, ConfKind::InnerQueue))
    } else {
        Ok(TreePosition {
            parent: Some(number),
            level: branch.level + 1,
        })
    }
}

/// Where a class of this parent stands.
fn spot_of(draft: &Draft, statement: &Statement, parent: &str) -> Result<TreePosition, ConfPlace>
    ensures { result ≡ spot_of draft.now statement.now parent.now }
{
    if parent == "NULL" {
        if draft.rooted {
            return Err(at_word(statement, 5, ConfKind::TwoRoots));
        }
        return Ok(TreePosition {
            parent: None,
            level: 1,
        });
    }
    let Some(number) = draft.class_number(parent) else {
        return Err(at_word(statement, 5, ConfKind::NoParent));
    };
    match draft.classes.get(number as usize) {
        Some(branch) => below(draft.kind, statement, number, branch),
        None => Err(at_word(statement, 5, ConfKind::NoParent)),
    }
}

/// The rate that a CBQ class has at its end: the root that of the bandwidth, if it is not given.
fn rate_given(rate: u64, spot: TreePosition, settings: Settings) -> Option<u64>
    ensures { result ≡ rate_given rate spot settings }
{
    match settings.rate {
        Some(rate) => Some(rate),
        None if spot.parent.is_some() => None,
        None => Some(rate),
    }
}

/// The rate of a class at its end, which is 0 in HFSC.
fn rate_at_end(
    draft: &Draft,
    statement: &Statement,
    spot: TreePosition,
    settings: Settings,
) -> Result<u64, ConfPlace>
    ensures { result ≡ rate_at_end draft.now.kind draft.now statement.now spot settings }
{
    match draft.kind {
        Kind::Hfsc if spot.parent.is_some() && settings.share.is_none() => {
            Err(at_word(statement, statement.end, ConfKind::NoShare))
        }
        Kind::Hfsc => Ok(0),
        Kind::Cbq => match rate_given(draft.rate, spot, settings) {
            Some(rate) => Ok(rate),
            None => Err(at_word(statement, statement.end, ConfKind::MissingWord)),
        },
    }
}

/// A class of this name, but for the name.
fn shape_of(draft: &Draft, statement: &Statement, name: &str) -> Result<ClassDraft, ConfPlace>
    ensures shape { result ≡ shape_of draft.now statement.now name.now }
    ensures new { IfOk result (λ _. class_number name.now draft.now.classes ≡ None) }
{
    if draft.class_number(name).is_some() {
        return Err(at_word(statement, 4, ConfKind::NameTaken));
    }
    let Some(parent) = name_at(statement.items.as_slice(), 2) else {
        return Err(own_fault(statement));
    };
    let spot = spot_of(draft, statement, parent)?;
    let scope = ReadContext {
        line: statement.line,
        rate: draft.rate,
        chosen: draft.chosen,
    };
    let settings = set_options(scope, unset(), behind(statement, 3))?;
    if let Some(fault) = statement.fault {
        return Err(fault);
    }
    let rate = rate_at_end(draft, statement, spot, settings)?;
    Ok(ClassDraft {
        spot,
        settings,
        rate,
    })
}

/// The fault of a class without a NAME, on an interface that is full or not.
fn unnamed(draft: &Draft, statement: &Statement) -> ConfPlace
    ensures { result ≡ unnamed_class draft.now statement.now }
{
    if draft.classes.len() >= 256 && 4 < statement.end {
        at_word(statement, 4, ConfKind::TooManyClasses)
    } else {
        own_fault(statement)
    }
}

/// The class of a statement of a kind.
fn read_branch(
    alloc: Global,
    draft: &Draft,
    kind: Kind,
    statement: &Statement,
) -> Result<Branch, ConfFault>
    ensures read { Answers result (read_branch draft.now kind statement.now) }
    ensures fits { IfOk result (λ branch. Fits draft.now statement.now branch) }
{
    if kind != draft.kind {
        return Err(ConfFault::At(at_word(statement, 3, ConfKind::WrongDiscipline)));
    }
    let Some(name) = name_at(statement.items.as_slice(), 1) else {
        return Err(ConfFault::At(unnamed(draft, statement)));
    };
    if draft.classes.len() >= 256 {
        return Err(ConfFault::At(at_word(statement, 4, ConfKind::TooManyClasses)));
    }
    match shape_of(draft, statement, name) {
        Ok(shape) => match branch_of(alloc, draft.kind, name, shape) {
            Ok(branch) => Ok(branch),
            Err(NoMemory) => Err(ConfFault::NoMemory),
        },
        Err(fault) => Err(ConfFault::At(fault)),
    }
}

/// Reads a `class` of a kind.
pub(crate) fn read_class<'a>(
    alloc: Global,
    tree: &mut Tree<'a>,
    kind: Kind,
    statement: &'a Statement,
) -> Result<(), ConfFault>
    ensures { Gains result tree.new (read_class tree.old kind statement.now) }
{
    let Some(interface) = name_at(statement.items.as_slice(), 0) else {
        return Err(ConfFault::At(own_fault(statement)));
    };
    let Some(number) = tree.interface_number(interface) else {
        return Err(ConfFault::At(at_word(statement, 3, ConfKind::NoInterface)));
    };
    let Some(draft) = tree.interfaces().get(number) else {
        return Err(ConfFault::At(at_word(statement, 3, ConfKind::NoInterface)));
    };
    let branch = match read_branch(alloc, draft, kind, statement) {
        Ok(branch) => branch,
        Err(fault) => return Err(fault),
    };
    match tree.add_class(number, statement, branch) {
        Ok(()) => Ok(()),
        Err(NoMemory) => Err(ConfFault::NoMemory),
    }
}
