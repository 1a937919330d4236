// The lines that say how late packets can be sent.
ghost use Rattle.std.specs.Prelude.{◌≡◌, ◌≤◌, ℕ, true, IfOk, Some, slice_get, length, string_bytes};
ghost use Rattle.bound_command.specs.Lines.{bound_line, bound_lines, bound_of};
ghost use Rattle.conf_tree.specs.declared.class.Class.{Class};
ghost use Rattle.conf_tree.specs.Family.{is_leaf};
ghost use Rattle.service_curve.specs.Curve.{IsInRange};
ghost use Rattle.service_curve.specs.declared.Curve.{Curve};

use conf_tree::{Class, Interface};
use play_base::{NoMemory, time_of, units};
use service_curve::Curve;
use std::alloc::{AllocError, Global};

/// The rate in bits per second to which packets of a leaf may keep, and how many nanoseconds after it arrived each of them ends at the latest.
#[derive(Clone, Copy)]
pub struct Bound {
    pub rate: u64,
    pub bound: u128,
}

/// The bound of a leaf with this real-time curve on a link of a rate in bits per second, at least 1,000, whose packets have at most `longest`
/// bytes, where those of the leaf come in bursts of `burst` bytes: none without a second slope. Takes no memory and constant time.
pub fn bound_of(real: Option<Curve>, rate: u64, longest: u32, burst: u32) -> Option<Bound>
    requires rate { 1000 ≤ rate }
    requires curve { (s : Curve) → real ≡ Some s → IsInRange s }
    ensures { result ≡ bound_of true real rate (record { longest = longest; burst = burst }) }
{
    let curve = match real {
        Some(curve) => curve,
        None => return None,
    };
    if curve.m2 == 0 {
        return None;
    }
    match curve.first(units(u64::from(burst))) {
        Some(first) => Some(Bound {
            rate: curve.m2,
            bound: first + u128::from(time_of(u64::from(longest), rate)),
        }),
        None => None,
    }
}

// The line of a leaf.
fn bound_line(alloc: Global, name: &str, bound: Option<Bound>) -> Result<String, AllocError>
    ensures { IfOk result (λ line. string_bytes line ≡ bound_line name.now bound) }
{
    match bound {
        Some(Bound { rate, bound }) => format!(in alloc; "{name} rate {rate} bound {bound}\n"),
        None => format!(in alloc; "{name} none\n"),
    }
}

// Whether the class of a number has no child.
fn is_leaf(classes: &[Class], number: usize) -> bool
    ensures { result ≡ is_leaf classes.now number }
{
    for class in classes {
        if let Some(parent) = class.parent
            && parent as usize == number
        {
            return false;
        }
    }
    true
}

/// A line for each leaf of an interface of HFSC, in the order of the file: `NAME rate R bound N`, or `NAME none`, as all are where the curves
/// do not fit the link. The only error is want of memory. Costs the length of the text, and the square of the number of classes.
pub fn bound_lines(
    alloc: Global,
    interface: &Interface,
    fits: bool,
    longest: u32,
    burst: u32,
) -> Result<String, NoMemory>
    requires rate { 1000 ≤ interface.now.rate }
    requires curves { (k : ℕ) (c : Class) (s : Curve) → slice_get interface.now.classes k ≡ Some c → c.real ≡ Some s → IsInRange s }
    ensures { IfOk result (λ text. string_bytes text ≡ bound_lines fits interface.now (record { longest = longest; burst = burst })) }
{
    let classes = interface.classes.as_slice();
    let mut text = String::new(alloc);
    for (number, class) in classes.iter().enumerate() {
        if is_leaf(classes, number) {
            let real = if fits { class.real } else { None };
            let bound = bound_of(real, interface.rate, longest, burst);
            let line = bound_line(alloc, class.name.as_str(), bound)?;
            text.push_str(line.as_str())?;
        }
    }
    Ok(text)
}
