// The meters of an interface's classes, by the number of the class.
ghost use Rattle.std.specs.Prelude.{◌≡◌, length, IfOk};
ghost use Rattle.traffic_marks.specs.Marked.{assured_class};
ghost use Rattle.marked_files.specs.Metering.{AreAssured, AreReady, frame_by, meter_of, meters_after, new_meter, new_meters};

use play_base::NoMemory;
use std::alloc::Global;
use traffic_marks::mark;
use traffic_meter::{Meter, MeterRule};

// The class of assured forwarding of a meter's marks.
fn assured_class(rule: &MeterRule) -> u8
    ensures { result ≡ assured_class rule.now }
{
    match rule {
        MeterRule::Single { af, .. } => *af,
        MeterRule::Two { af, .. } => *af,
    }
}

// Marks the frame of a packet of a class: its meter says the colour. A class without one leaves it.
pub fn mark_by(meters: &mut Vec<Option<Meter>>, class: u32, moment: u64, len: u32, frame: &mut [u8])
    requires ready { AreReady moment meters.old.items }
    ensures frame { frame.new ≡ frame_by (meter_of meters.old.items class) (record { moment = moment; len = len }) frame.old }
    ensures long { length frame.new ≡ length frame.old }
    ensures meters { meters.new.items ≡ meters_after meters.old.items class (record { moment = moment; len = len }) }
    ensures ready { AreReady moment meters.new.items }
{
    let place = class as usize;
    if place >= meters.len() {
        return;
    }
    match &mut meters[place] {
        Some(meter) => {
            let af = assured_class(meter.rule());
            mark(meter, af, moment, len, frame);
        }
        None => {}
    }
}

// A new meter of a rule.
fn new_meter(rule: &Option<MeterRule>) -> Option<Meter>
    ensures { result ≡ new_meter rule.now }
{
    match rule {
        Some(rule) => Some(Meter::new(rule)),
        None => None,
    }
}

// New meters of these rules.
pub fn new_meters(
    alloc: Global,
    rules: &[Option<MeterRule>],
) -> Result<Vec<Option<Meter>>, NoMemory>
    requires assured { AreAssured rules.now }
    ensures meters { IfOk result (λ meters. meters.items ≡ new_meters rules.now) }
    ensures ready { IfOk result (λ meters. AreReady 0 meters.items) }
{
    let mut meters = Vec::with_capacity(alloc, rules.len())?;
    for rule in rules {
        meters.push(new_meter(rule))?;
    }
    Ok(meters)
}
