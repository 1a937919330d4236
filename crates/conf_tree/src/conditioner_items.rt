//! What the canonical line of a conditioner says.
ghost use Rattle.std.specs.Prelude.{◌≡◌, ◌∷◌, ◌++◌, [], IfOk, OnOk};
ghost use Rattle.conf_tree.specs.Canonical.{meter_whats, conditioner_line};

use crate::class_items::{push, push_name, push_with};
use conf_lines::{Key, What};
use play_base::NoMemory;
use std::alloc::Global;
use traffic_meter::MeterRule;

/// Adds a meter: its word, its rates and bursts, and the class of its marks.
fn push_meter(whats: &mut Vec<What>, rule: MeterRule) -> Result<(), NoMemory>
    ensures { OnOk result (whats.new.items ≡ whats.old.items ++ meter_whats rule) }
{
    let (burst, af) = match rule {
        MeterRule::Single { cir, cbs, ebs, af } => {
            push_with(whats, Key::Srtcm, What::Rate(cir))?;
            push(whats, What::Whole(u64::from(cbs)))?;
            (ebs, af)
        }
        MeterRule::Two {
            pir,
            pbs,
            cir,
            cbs,
            af,
        } => {
            push_with(whats, Key::Trtcm, What::Rate(pir))?;
            push(whats, What::Whole(u64::from(pbs)))?;
            push(whats, What::Rate(cir))?;
            (cbs, af)
        }
    };
    push(whats, What::Whole(u64::from(burst)))?;
    push(whats, What::Whole(u64::from(af)))
}

/// What the line of a conditioner says: its names, and its meter.
pub(crate) fn conditioner_whats(
    alloc: Global,
    interface: &str,
    class: &str,
    rule: MeterRule,
) -> Result<Vec<What>, NoMemory>
    ensures { IfOk result (λ whats. whats.items ≡ (conditioner_line interface.now class.now rule).whats) }
{
    let mut whats = Vec::new(alloc);
    push_name(alloc, &mut whats, interface)?;
    push_name(alloc, &mut whats, class)?;
    push_meter(&mut whats, rule)?;
    Ok(whats)
}
