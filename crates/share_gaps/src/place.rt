//! What stands above a class.
ghost use Rattle.std.specs.Prelude.{◌≡◌, ◌<◌, ◌≤◌, ◌^◌, ℕ, IfOk, length, slice_get};
ghost use Rattle.hfsc_model.specs.Tree.{path, IsTree};
ghost use Rattle.share_gaps.specs.Rows.{first_in, firsts_in, is_in, IsPlace, second_in, seconds_in};
ghost use Rattle.share_gaps.specs.Within.{ArePlaces};

use crate::siblings::Siblings;
use hfsc_groups::is_parent;
use hfsc_model::HfscClass;
use play_base::NoMemory;
use std::alloc::Global;

/// The most levels of a tree.
const LEVELS: u32 = 8;

/// A class and those above it up to the root; whether it is a leaf; and the rows of the pairs whose first stands among them, and of
/// those whose second does.
#[derive(Drop)]
pub struct Place {
    pub path: Vec<u32>,
    pub leaf: bool,
    pub firsts: Vec<u32>,
    pub seconds: Vec<u32>,
}

/// A class, its parent and so on up to the root.
fn path_of(alloc: Global, classes: &[HfscClass], class: u32) -> Result<Vec<u32>, NoMemory>
    requires tree { IsTree classes.now }
    requires class { class < length classes.now }
    ensures { IfOk result (λ up. up.items ≡ path classes.now class) }
{
    let mut up = Vec::new(alloc);
    let mut next = Some(class);
    for _ in 0..LEVELS {
        let Some(class) = next else {
            return Ok(up);
        };
        up.push(class)?;
        next = classes[class as usize].parent;
    }
    Ok(up)
}

/// A class stands on a path.
fn stands_in(path: &[u32], class: u32) -> bool
    ensures { result ≡ is_in class path.now }
{
    path.iter().any(|other| *other == class)
}

/// The first of a row stands on a path.
fn first_in(path: &[u32], siblings: &[Siblings], row: u32) -> bool
    requires { row < length siblings.now }
    ensures { result ≡ first_in path.now (slice_get siblings.now row) }
{
    let class = siblings[row as usize].first;
    stands_in(path, class)
}

/// The rows whose first stands on a path.
fn firsts_in(alloc: Global, siblings: &[Siblings], path: &[u32]) -> Result<Vec<u32>, NoMemory>
    requires { length siblings.now ≤ 65536 }
    ensures { IfOk result (λ rows. rows.items ≡ firsts_in siblings.now path.now) }
{
    let mut rows = Vec::new(alloc);
    for row in 0..siblings.len() as u32 {
        if first_in(path, siblings, row) {
            rows.push(row)?;
        }
    }
    Ok(rows)
}

/// The second of a row stands on a path.
fn second_in(path: &[u32], siblings: &[Siblings], row: u32) -> bool
    requires { row < length siblings.now }
    ensures { result ≡ second_in path.now (slice_get siblings.now row) }
{
    let class = siblings[row as usize].second;
    stands_in(path, class)
}

/// The rows whose second stands on a path.
fn seconds_in(alloc: Global, siblings: &[Siblings], path: &[u32]) -> Result<Vec<u32>, NoMemory>
    requires { length siblings.now ≤ 65536 }
    ensures { IfOk result (λ rows. rows.items ≡ seconds_in siblings.now path.now) }
{
    let mut rows = Vec::new(alloc);
    for row in 0..siblings.len() as u32 {
        if second_in(path, siblings, row) {
            rows.push(row)?;
        }
    }
    Ok(rows)
}

/// What stands above a class.
fn place_of(
    alloc: Global,
    classes: &[HfscClass],
    siblings: &[Siblings],
    class: u32,
) -> Result<Place, NoMemory>
    requires tree { IsTree classes.now }
    requires class { class < length classes.now }
    requires rows { length siblings.now ≤ 65536 }
    ensures { IfOk result (IsPlace classes.now siblings.now class) }
{
    let path = path_of(alloc, classes, class)?;
    let firsts = firsts_in(alloc, siblings, &path)?;
    let seconds = seconds_in(alloc, siblings, &path)?;
    Ok(Place {
        path,
        leaf: !is_parent(classes, class),
        firsts,
        seconds,
    })
}

/// What stands above each class.
pub fn places_of(
    alloc: Global,
    classes: &[HfscClass],
    siblings: &[Siblings],
) -> Result<Vec<Place>, NoMemory>
    requires tree { IsTree classes.now }
    requires count { length classes.now ≤ 256 }
    requires rows { length siblings.now ≤ 65536 }
    ensures { IfOk result (λ places. ArePlaces classes.now siblings.now places.items) }
{
    let mut places = Vec::with_capacity(alloc, classes.len())?;
    for class in 0..classes.len() as u32 {
        places.push(place_of(alloc, classes, siblings, class)?)?;
    }
    Ok(places)
}
