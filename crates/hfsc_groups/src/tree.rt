//! The nodes and the groups of all classes of a tree.
ghost use Rattle.std.specs.Prelude.{◌≡◌, ◌<◌, ◌≤◌, ℕ, All, length, true, IfOk};
ghost use Rattle.hfsc_model.specs.Tree.{is_child, is_parent};
ghost use Rattle.hfsc_groups.specs.Classes.{IsClass};
ghost use Rattle.hfsc_groups.specs.Node.{AreNew};
ghost use Rattle.hfsc_groups.specs.Group.{AreEmpty, AreRanked, MayRank};

use crate::group::Group;
use crate::node::Node;
use hfsc_model::HfscClass;
use play_base::NoMemory;
use std::alloc::Global;

/// Puts a class anew into the lists of its parent, with its virtual time and the moment from which it opens; `was` says
/// whether it was active before. A root stands in no list. It takes the logarithm of its active siblings, which it moves.
#[inline(always)]
pub fn rank(groups: &mut Vec<Group>, class: u32, was: bool, node: &Node)
    requires { MayRank class was node.now groups.old.items }
    ensures { AreRanked class node.now groups.old.items groups.new.items }
{
    if let Some(parent) = node.parent() {
        groups[parent as usize].replace(class, was, node.is_active(), node.time(), node.opening());
    }
}

/// Whether a class has a child; a class without one is a leaf. It looks at each class once.
pub fn is_parent(classes: &[HfscClass], class: u32) -> bool
    ensures { result ≡ is_parent classes.now class }
{
    for child in classes {
        if child.parent == Some(class) {
            return true;
        }
    }
    false
}

/// What is held of classes without a packet, one after another.
pub fn nodes_of(alloc: Global, classes: &[HfscClass]) -> Result<Vec<Node>, NoMemory>
    requires { All IsClass classes.now }
    ensures { IfOk result (λ nodes. AreNew classes.now nodes.items) }
{
    let mut nodes = Vec::with_capacity(alloc, classes.len())?;
    for class in classes {
        nodes.push(Node::new(class))?;
    }
    Ok(nodes)
}

/// A group for each of at most 256 classes, without an active child; in that of a leaf no child has a place. The time and the
/// memory grow with the square of the classes at most.
pub fn groups_of(alloc: Global, classes: &[HfscClass]) -> Result<Vec<Group>, NoMemory>
    requires { length classes.now ≤ 256 }
    ensures { IfOk result (λ groups. AreEmpty classes.now groups.items) }
{
    let mut groups = Vec::with_capacity(alloc, classes.len())?;
    for class in 0..classes.len() {
        let first = first_below(classes, class as u32);
        let places = places_below(classes, class as u32);
        groups.push(Group::reserve(alloc, first, places)?)?;
    }
    Ok(groups)
}

/// The first child of a class; where it has none, a number that no class has.
fn first_below(classes: &[HfscClass], class: u32) -> u32
    requires { length classes.now ≤ 256 }
    ensures least { (c : ℕ) → is_child classes.now class c ≡ true → result ≤ c }
    ensures child { result < length classes.now → is_child classes.now class result ≡ true }
{
    let count = classes.len() as u32;
    for index in 0..count {
        if classes[index as usize].parent == Some(class) {
            return index;
        }
    }
    count
}

/// How many classes have a place among the children of a class: those up to its last child, or where it has no child none.
fn places_below(classes: &[HfscClass], class: u32) -> u32
    requires { length classes.now ≤ 256 }
    ensures { (c : ℕ) → is_child classes.now class c ≡ true → c < result }
{
    let mut places = 0;
    for index in 0..classes.len() as u32 {
        if classes[index as usize].parent == Some(class) {
            places = index + 1;
        }
    }
    places
}
