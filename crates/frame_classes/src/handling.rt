// What a class asks for the frames of its packets.
ghost use Rattle.std.specs.Prelude.{◌≡◌, IfOk, map, slice_get, unwrap_or};
ghost use Rattle.frame_classes.specs.Handlings.{handling_at, handling_of, is_ecn};

use conf_tree::{Class, DropRule};
use play_base::NoMemory;
use std::alloc::Global;

/// What a class asks for its packets: `marks` says that its queue marks them in place of early drops, so that their precedence is 1
/// where their transport is capable of marks (ECN), else 0, and `clears` that their code points are cleared as they depart.
#[derive(Clone, Copy, Debug, PartialEq, Eq)]
pub struct Handling {
    pub marks: bool,
    pub clears: bool,
}

// Whether a queue marks.
fn is_ecn(drop: DropRule) -> bool
    ensures { result ≡ is_ecn drop }
{
    match drop {
        DropRule::Ecn => true,
        _ => false,
    }
}

// What a class asks.
fn handling_of(class: &Class) -> Handling
    ensures { result ≡ handling_of class.now }
{
    Handling {
        marks: is_ecn(class.drop),
        clears: class.clear,
    }
}

/// What each class asks, in the order of the classes.
pub(crate) fn handlings(alloc: Global, classes: &[Class]) -> Result<Vec<Handling>, NoMemory>
    ensures { IfOk result (λ found. found.items ≡ map handling_of classes.now) }
{
    let mut found = Vec::new(alloc);
    for class in classes {
        found.push(handling_of(class))?;
    }
    Ok(found)
}

/// What the class of a number asks; nothing where there is none.
pub(crate) fn handling_at(found: &[Handling], class: u32) -> Handling
    ensures { result ≡ handling_at found.now class }
{
    match found.get(class as usize) {
        Some(handling) => *handling,
        None => Handling {
            marks: false,
            clears: false,
        },
    }
}
