// Whether the play of an interface is that of one queue.
ghost use Rattle.std.specs.Prelude.{◌≡◌, ◌≤◌, ◌↔◌, ◌∷◌, [], ℕ, All, IfNone, IfSome, IsTrue, Some, length};
ghost use Rattle.conf_laws.specs.Fit.{IsInterface};
ghost use Rattle.hfsc_order.specs.Queue.{IsOneQueue};
ghost use Rattle.hfsc_policy.specs.Classes.{leaves};
ghost use Rattle.interface_policy.specs.Classes.{hfsc_classes};
ghost use Rattle.interface_policy.specs.Sole.{OnlyShares};

use crate::names::is_leaf;
use conf_tree::{Class, Interface};

// Whether a class has no upper limit, and no real-time curve but one that is 0 everywhere.
fn only_shares(class: &Class) -> bool
    ensures { IsTrue result ↔ OnlyShares class.now }
{
    if class.upper.is_some() {
        return false;
    }
    match class.real {
        None => true,
        Some(curve) => curve.m1 == 0 && curve.m2 == 0,
    }
}

// Whether that is so of each class.
fn all_only_share(classes: &[Class]) -> bool
    ensures { IsTrue result ↔ All OnlyShares classes.now }
{
    classes.iter().all(|class| only_shares(class))
}

// The leaf of classes that have one alone.
fn sole_leaf(classes: &[Class]) -> Option<u32>
    requires { length classes.now ≤ 256 }
    ensures sole { IfSome result (λ l. leaves (hfsc_classes classes.now) ≡ l ∷ []) }
    ensures none { IfNone result ((l : ℕ) → leaves (hfsc_classes classes.now) ≡ l ∷ [] → ⊥) }
{
    let mut count = 0u32;
    let mut last = 0u32;
    for number in 0..classes.len() as u32 {
        if is_leaf(classes, number) {
            count += 1;
            last = number;
        }
    }
    if count == 1 { Some(last) } else { None }
}

/// The one class of an interface of HFSC that holds packets, where the play is that of one queue: no class has an upper limit, or a
/// real-time curve but one that is 0 everywhere. `None` elsewhere. An interface without class statements has such a class, `default`. Takes
/// no memory, and time by the square of the number of classes.
pub fn sole_class(interface: &Interface) -> Option<u32>
    requires { IsInterface interface.now }
    ensures sole { IfSome result (IsOneQueue (hfsc_classes interface.now.classes)) }
    ensures none { IfNone result ((l : ℕ) → IsOneQueue (hfsc_classes interface.now.classes) l → ⊥) }
{
    let classes = interface.classes.as_slice();
    if !all_only_share(classes) {
        return None;
    }
    sole_leaf(classes)
}
