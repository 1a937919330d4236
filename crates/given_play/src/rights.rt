// What can become of the packets of each class.
ghost use Rattle.std.specs.Prelude.{◌≡◌, IfOk};
ghost use Rattle.frame_classes.specs.Handlings.{is_ecn};
ghost use Rattle.given_play.specs.Rights.{allowed_in, allowed_of, drops_early, has_curve, marks_of};

use conf_tree::{Class, DropRule, Interface, Kind};
use fate_judge::Allowed;
use play_base::NoMemory;
use service_curve::Curve;
use std::alloc::Global;

// Whether there is a curve that is not 0 everywhere.
fn has_curve(curve: Option<Curve>) -> bool
    ensures { result ≡ has_curve curve }
{
    match curve {
        Some(curve) => curve.m1 != 0 || curve.m2 != 0,
        None => false,
    }
}

// Whether a queue drops packets before it is full.
fn drops_early(drop: DropRule) -> bool
    ensures { result ≡ drops_early drop }
{
    match drop {
        DropRule::Tail => false,
        DropRule::Red | DropRule::Ecn | DropRule::Rio => true,
    }
}

// Whether a queue marks.
fn is_ecn(drop: DropRule) -> bool
    ensures { result ≡ is_ecn drop }
{
    match drop {
        DropRule::Ecn => true,
        DropRule::Tail | DropRule::Red | DropRule::Rio => false,
    }
}

// What can become of the packets of a class.
fn allowed_in(kind: Kind, class: &Class) -> Allowed
    ensures { result ≡ allowed_in kind class.now }
{
    let early = drops_early(class.drop);
    match kind {
        Kind::Hfsc => Allowed {
            real_time: has_curve(class.real),
            share: true,
            own: false,
            borrow: false,
            early,
        },
        Kind::Cbq => Allowed {
            real_time: false,
            share: false,
            own: true,
            borrow: class.borrow,
            early,
        },
    }
}

/// What can become of the packets of each class of an interface, in the order of its classes: by share and, with a real-time curve
/// that is not 0 everywhere, by real time in HFSC; in CBQ by its own rate and, where the class may borrow, by borrowing; and drops
/// before the queue is full where that goes by RED, RED that marks, or RIO. `NoMemory` comes only when memory runs out.
pub fn allowed(alloc: Global, interface: &Interface) -> Result<Vec<Allowed>, NoMemory>
    ensures { IfOk result (λ all. all.items ≡ allowed_of interface.now) }
{
    let classes = interface.classes.as_slice();
    let mut all = Vec::with_capacity(alloc, classes.len())?;
    for class in classes {
        all.push(allowed_in(interface.kind, class))?;
    }
    Ok(all)
}

/// Which classes of an interface have a queue that marks packets in place of early drops, in the order of its classes.
pub fn marks(alloc: Global, interface: &Interface) -> Result<Vec<bool>, NoMemory>
    ensures { IfOk result (λ all. all.items ≡ marks_of interface.now) }
{
    let classes = interface.classes.as_slice();
    let mut all = Vec::with_capacity(alloc, classes.len())?;
    for class in classes {
        all.push(is_ecn(class.drop))?;
    }
    Ok(all)
}
