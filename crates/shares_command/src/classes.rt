// The classes of an interface as HFSC sees them.
ghost use Rattle.std.specs.Prelude.{◌≡◌, IfOk};
ghost use Rattle.interface_policy.specs.Classes.{hfsc_class, hfsc_classes};

use conf_tree::Class;
use hfsc_model::HfscClass;
use play_base::NoMemory;
use std::alloc::Global;

// A class of HFSC.
fn hfsc_class(class: &Class) -> HfscClass
    ensures { result ≡ hfsc_class class.now }
{
    HfscClass {
        parent: class.parent,
        real: class.real,
        share: class.share,
        limit: class.upper,
    }
}

/// The classes of an interface as HFSC sees them, in their order. `NoMemory` comes only when memory runs out.
pub fn hfsc_classes(alloc: Global, classes: &[Class]) -> Result<Vec<HfscClass>, NoMemory>
    ensures { IfOk result (λ all. all.items ≡ hfsc_classes classes.now) }
{
    let mut all = Vec::with_capacity(alloc, classes.len())?;
    for class in classes {
        all.push(hfsc_class(class))?;
    }
    Ok(all)
}
