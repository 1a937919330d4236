//! Which classes are leaves.
ghost use Rattle.std.specs.Prelude.{◌≡◌, ◌≤◌, ◌<◌, ℕ, IfOk, length, Some, slice_get};
ghost use Rattle.hfsc_model.specs.Tree.{is_leaf};

use hfsc_groups::is_parent;
use hfsc_model::HfscClass;
use play_base::NoMemory;
use std::alloc::Global;

/// For each class whether it is a leaf, and so may hold packets.
pub fn leaves_of(alloc: Global, classes: &[HfscClass]) -> Result<Vec<bool>, NoMemory>
    requires { length classes.now ≤ 256 }
    ensures count { IfOk result (λ holds. length holds.items ≡ length classes.now) }
    ensures each { IfOk result (λ holds. (c : ℕ) → c < length classes.now → slice_get holds.items c ≡ Some (is_leaf classes.now c)) }
{
    let mut holds = Vec::with_capacity(alloc, classes.len())?;
    for class in 0..classes.len() as u32 {
        holds.push(!is_parent(classes, class))?;
    }
    Ok(holds)
}
