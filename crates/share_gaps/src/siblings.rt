//! The pairs of siblings.
ghost use Rattle.std.specs.Prelude.{◌≡◌, ◌<◌, ◌≤◌, ◌++◌, ℕ, IfOk, OnOk, length};
ghost use Rattle.share_gaps.specs.Rows.{are_siblings, pair, rows, rows_of, share_parent};

use hfsc_model::HfscClass;
use play_base::NoMemory;
use std::alloc::Global;

/// Two classes with the same parent, by their numbers; the first stands earlier in the file.
#[derive(Clone, Copy)]
pub struct Siblings {
    pub first: u32,
    pub second: u32,
}

/// Two classes have the same parent.
fn share_parent(classes: &[HfscClass], class: u32, other: u32) -> bool
    requires class { class < length classes.now }
    requires other { other < length classes.now }
    ensures { result ≡ share_parent classes.now class other }
{
    match classes[class as usize].parent {
        None => false,
        Some(parent) => classes[other as usize].parent == Some(parent),
    }
}

/// Two classes are siblings, the first of which stands earlier in the file.
fn are_siblings(classes: &[HfscClass], siblings: &Siblings) -> bool
    requires first { siblings.now.first < length classes.now }
    requires second { siblings.now.second < length classes.now }
    ensures { result ≡ are_siblings classes.now siblings.now }
{
    siblings.first < siblings.second && share_parent(classes, siblings.first, siblings.second)
}

/// Puts the pairs with this class as the first behind those that are there.
fn add_rows(rows: &mut Vec<Siblings>, classes: &[HfscClass], first: u32) -> Result<(), NoMemory>
    requires count { length classes.now ≤ 256 }
    requires class { first < length classes.now }
    ensures { OnOk result (rows.new.items ≡ rows.old.items ++ rows_of classes.now first) }
{
    for second in 0..classes.len() as u32 {
        let siblings = Siblings { first, second };
        if are_siblings(classes, &siblings) {
            rows.push(siblings)?;
        }
    }
    Ok(())
}

/// The pairs of siblings among at most 256 classes, in the order of the file of the first, then of the second. `NoMemory` comes only
/// when memory runs out.
pub fn rows_of(alloc: Global, classes: &[HfscClass]) -> Result<Vec<Siblings>, NoMemory>
    requires { length classes.now ≤ 256 }
    ensures { IfOk result (λ all. all.items ≡ rows classes.now) }
{
    let mut all = Vec::new(alloc);
    for first in 0..classes.len() as u32 {
        add_rows(&mut all, classes, first)?;
    }
    Ok(all)
}
