// What never changes of a class.
ghost use Rattle.std.specs.Prelude.{◌≡◌, ◌≤◌, ◌<◌, ◌^◌, ℕ, Some, length};
ghost use Rattle.std.specs.List.{list_any};
ghost use Rattle.cbq_model.specs.Tree.{is_root, lender_of, lenders_up, quantum_of};
ghost use Rattle.cbq_sharing.specs.Fresh.{HasEarlierParents, IsClass};
ghost use Rattle.cbq_sharing.specs.Shared.{fixed_of};

use crate::sharing::LEVELS;
use cbq_model::CbqClass;

/// What a class gains in a round, in bytes; and whether the root is one of those that may lend to it, so that it may always send.
#[derive(Clone, Copy)]
pub struct Fixed {
    pub(crate) quantum: u64,
    pub(crate) rooted: bool,
}

// What a class gains in a round on a link of `rate`, in bytes.
fn quantum_of(class: &CbqClass, rate: u64) -> u64
    requires class { IsClass class.now }
    requires least { 1000 ≤ rate }
    requires most { rate ≤ 10 ^ 12 }
    ensures { result ≡ quantum_of rate class.now }
{
    let part = (1500 * class.rate + (rate - 1)) / rate;
    part.max(1)
}

// Whom a class may ask for a loan.
fn lender_of(class: &CbqClass) -> Option<u32>
    ensures { result ≡ lender_of class.now }
{
    if class.borrow { class.parent } else { None }
}

// Whether a class that may lend is the root, or one of the lenders above it is, over at most `levels` levels.
fn has_root(classes: &[CbqClass], levels: u32, lender: Option<u32>) -> bool
    requires parents { HasEarlierParents classes.now }
    requires lender { (p : ℕ) → lender ≡ Some p → p < length classes.now }
    ensures { result ≡ list_any (is_root classes.now) (lenders_up levels classes.now lender) }
{
    let Some(class) = lender else {
        return false;
    };
    if levels == 0 {
        return false;
    }
    let k = &classes[class as usize];
    if k.parent.is_none() {
        return true;
    }
    let next = lender_of(k);
    has_root(classes, levels - 1, next)
}

/// What never changes of one of some classes on a link of `rate` bits per second, 1,000 to 10^12.
pub fn fixed_of(classes: &[CbqClass], class: &CbqClass, rate: u64) -> Fixed
    requires class { IsClass class.now }
    requires least { 1000 ≤ rate }
    requires most { rate ≤ 10 ^ 12 }
    requires parents { HasEarlierParents classes.now }
    requires lender { (p : ℕ) → lender_of class.now ≡ Some p → p < length classes.now }
    ensures { result ≡ fixed_of rate classes.now class.now }
{
    let lender = lender_of(class);
    Fixed {
        quantum: quantum_of(class, rate),
        rooted: has_root(classes, LEVELS, lender),
    }
}
