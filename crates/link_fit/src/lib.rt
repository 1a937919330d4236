//! Whether the real-time curves of an interface fit its link, and the line that says it.
//!
//! A link that its curves fit can keep all of them at once; where they exceed it, the line names the moment and by how much.
//! Moments are nanoseconds, amounts units, of which a byte has 8,000,000,000. The source is Stoica, Zhang and Ng, "A
//! Hierarchical Fair Service Curve Algorithm for Link-Sharing, Real-Time and Priority Services", SIGCOMM 1997.
#![tactic(auto)]

ghost use Rattle.std.specs.Prelude.{◌≡◌, IfOk, string_bytes};
ghost use Rattle.admission.specs.Fit.{Fits};
ghost use Rattle.conf_laws.specs.Fit.{IsInterface};
ghost use Rattle.conf_tree.specs.declared.interface.Interface.{Interface};
ghost use Rattle.conf_tree.specs.declared.interface.Kind.TheVariants.{Cbq};
ghost use Rattle.link_fit.specs.Curves.{real_curves, curves_of, HasCurves, IsFitOf};
ghost use Rattle.link_fit.specs.Lines.{fit_line};

use admission::{Fit, fits};
use conf_tree::{Class, Interface};
use service_curve::Curve;
use std::alloc::{AllocError, Global};

/// The real-time curves of classes, in the order of the file.
fn curves_of(alloc: Global, classes: &[Class]) -> Result<Vec<Curve>, AllocError>
    ensures { IfOk result (λ curves. curves.items ≡ real_curves classes.now) }
{
    let mut curves = Vec::new(alloc);
    for class in classes {
        if let Some(curve) = class.real {
            curves.push(curve)?;
        }
    }
    Ok(curves)
}

/// Whether the real-time curves of an interface fit its link, and if not, where they exceed it. The interface of any
/// configuration meets what is asked for (`configured_curves_can_be_summed`). `Err` comes only when memory runs out. It takes
/// time in proportion to the square of the number of curves.
pub fn fit_of(alloc: Global, interface: &Interface) -> Result<Fit, AllocError>
    requires { HasCurves interface.now }
    ensures { IfOk result (IsFitOf interface.now) }
{
    let curves = curves_of(alloc, interface.classes.as_slice())?;
    Ok(fits(curves.as_slice(), interface.rate))
}

/// The line that says how curves fit a link: `fits`, or `exceeds at T by U` with the moment in nanoseconds and the excess in
/// units. `Err` comes only when memory runs out.
pub fn fit_line(alloc: Global, fit: Fit) -> Result<String, AllocError>
    ensures { IfOk result (λ line. string_bytes line ≡ fit_line fit) }
{
    match fit {
        Fit::Fits => String::from_str(alloc, "fits\n"),
        Fit::Exceeds { at, by } => format!(in alloc; "exceeds at {at} by {by}\n"),
    }
}

/// The curves of an interface that keeps to the ranges of a configuration can be summed.
#[tactic(auto, using(crate::proofs::CurveLemmas::has_curves))]
pub fn configured_curves_can_be_summed()
    ensures { (interface : Interface) → IsInterface interface → HasCurves interface }
{}

/// An interface of classes by rates has no real-time curve, so its curves fit every link.
#[tactic(auto, using(crate::proofs::CurveLemmas::rates_fit))]
pub fn rates_fit()
    ensures { (interface : Interface) → IsInterface interface → interface.kind ≡ Cbq → Fits interface.rate (curves_of interface) }
{}
