// The test of due moments.
ghost use Rattle.std.specs.Prelude.{◌≡◌, ◌≤◌, ◌<◌, ◌^◌, [], IfErr, IfOk, IfSome, OnOk, length, map};
ghost use Rattle.conf_laws.specs.Fit.{IsInterface};
ghost use Rattle.fate_judge.specs.Walk.{EachRow, FirstFails};
ghost use Rattle.fate_timely.specs.Timely.{StartsInTurn, lates};
ghost use Rattle.file_judge.specs.Given.{curve_in, curves_in};
ghost use Rattle.file_judge.specs.Verdict.{AreTimely, EndsByDue, FitTheLink, IfTest, IsMost};

use crate::verdict::Unverified;
use admission::Fit;
use conf_tree::{Class, Interface};
use fate_check::Row;
use fate_timely::{Late, Overdue, lateness, longest_time};
use file_tests::Test;
use link_fit::{configured_curves_can_be_summed, fit_of};
use play_base::NoMemory;
use service_curve::Curve;
use std::alloc::Global;

// The real-time curve of a class; none where it is 0 everywhere.
fn curve_of(class: &Class) -> Option<Curve>
    ensures { result ≡ curve_in class.now }
{
    match class.real {
        Some(curve) => {
            if curve.m1 == 0 && curve.m2 == 0 {
                None
            } else {
                Some(curve)
            }
        }
        None => None,
    }
}

// Those of all classes.
fn curves(alloc: Global, classes: &[Class]) -> Result<Vec<Option<Curve>>, NoMemory>
    ensures { IfOk result (λ all. all.items ≡ map curve_in classes.now) }
{
    let mut all = Vec::with_capacity(alloc, classes.len())?;
    for class in classes {
        all.push(curve_of(class))?;
    }
    Ok(all)
}

// How late a packet may end, where the curves fit the link.
fn most_of(alloc: Global, interface: &Interface, rows: &[Row]) -> Result<Option<u128>, NoMemory>
    requires { IsInterface interface.now }
    ensures small { IfOk result (λ most. IfSome most (λ t. t < 2 ^ 120)) }
    ensures most { IfOk result (IsMost interface.now rows.now) }
{
    configured_curves_can_be_summed();
    match fit_of(alloc, interface)? {
        Fit::Fits => Ok(Some(longest_time(interface.rate, rows))),
        Fit::Exceeds { .. } => Ok(None),
    }
}

/// Holds rows to the due moments of the leaves with a real-time curve, where the curves fit the link, and says how late each came.
pub(crate) fn judge_due(
    alloc: Global,
    interface: &Interface,
    rows: &[Row],
) -> Result<Vec<Late>, Unverified>
    requires interface { IsInterface interface.now }
    requires few { length rows.now ≤ 2 ^ 32 }
    requires in_turn { EachRow StartsInTurn [] rows.now }
    ensures late { IfOk result (λ late. late.items ≡ lates (curves_in interface.now) rows.now) }
    ensures passed { OnOk result (AreTimely interface.now rows.now) }
    ensures refuted { IfErr result (IfTest Test.Due (λ row. FitTheLink interface.now × FirstFails (EndsByDue interface.now rows.now) rows.now row)) }
{
    let curves = curves(alloc, interface.classes.as_slice())?;
    let most = most_of(alloc, interface, rows)?;
    match lateness(alloc, most, &curves, rows) {
        Ok(late) => Ok(late),
        Err(Overdue::At(row)) => Err(Unverified::At {
            row,
            test: Test::Due,
        }),
        Err(Overdue::NoMemory) => Err(Unverified::NoMemory),
    }
}
