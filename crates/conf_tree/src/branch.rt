//! A class, as far as the statements say.
ghost use Rattle.std.specs.Prelude.{◌≡◌, IfOk};
ghost use Rattle.conf_tree.specs.Classes.{branch_of};

use crate::class::Class;
use crate::interface::Kind;
use crate::settings::{ClassDraft, class_of, of_kind, rate_of_kind};
use conf_lines::Text;
use play_base::NoMemory;
use std::alloc::Global;

/// A class, and what later statements need to know of it.
#[derive(Drop)]
pub(crate) struct Branch {
    pub(crate) class: Class,
    /// Its level, the root being on level 1.
    pub(crate) level: u8,
    /// Whether its real-time curve was set last by `rt` or `grate`.
    pub(crate) fixed: bool,
    /// Whether a class names it as its parent.
    pub(crate) inner: bool,
    /// Whether a filter names it. A conditioner that names it is the class's meter.
    pub(crate) filtered: bool,
}

/// A text of its own.
pub(crate) fn text_of(alloc: Global, name: &str) -> Result<Text, NoMemory>
    ensures { IfOk result (λ text. text ≡ name.now) }
{
    match String::from_str(alloc, name) {
        Ok(string) => Ok(Text::of(string)),
        Err(_) => Err(NoMemory),
    }
}

/// The class of a name and a shape.
pub(crate) fn branch_of(
    alloc: Global,
    kind: Kind,
    name: &str,
    shape: ClassDraft,
) -> Result<Branch, NoMemory>
    ensures { IfOk result (λ branch. branch ≡ branch_of kind name.now shape) }
{
    let name = text_of(alloc, name)?;
    let ClassDraft {
        spot,
        settings,
        rate,
    } = shape;
    let settings = of_kind(kind, settings);
    Ok(Branch {
        class: class_of(name, spot.parent, rate_of_kind(kind, rate), settings),
        level: spot.level,
        fixed: settings.fixed,
        inner: false,
        filtered: false,
    })
}
