// The packets of a capture as they arrive.
ghost use Rattle.std.specs.Prelude.{◌≡◌, ◌<◌, All, List, IfOk, length, map};
ghost use Rattle.altq_model.specs.Arrivals.{arrivals_of};
ghost use Rattle.altq_model.specs.Arrivals.{bare_arrivals as bare_arrivals_of};
ghost use Rattle.altq_model.specs.Lawful.{AreRising};
ghost use Rattle.capture_model.specs.Capture.{Record as Original};
ghost use Rattle.fate_judge.specs.Given.{bare_arrival, bare_arrivals};
ghost use Rattle.given_play.specs.Packets.{bare_arrival_at};
ghost use Rattle.input_files.specs.Held.{shown_in};
ghost use Rattle.input_files.specs.Records.{shown_of};

use discipline::Classify;
use fate_judge::Arrived;
use input_files::{Records, Seen};
use play_base::NoMemory;
use std::alloc::Global;

// The packet of a record, which arrives at this moment.
fn arrived_at<C: Classify>(classify: &C, found: Seen<'_>, at: u64) -> Arrived
    ensures { bare_arrival result ≡ bare_arrival_at (C.placed classify.now) at (shown_in found.entry) }
{
    let placed = classify.class(found.bytes);
    Arrived {
        at,
        len: found.len,
        class: placed.class,
        prec: placed.prec,
    }
}

/// The packets of a capture's records in the order of number: each in its class, by its captured bytes, and no earlier than those
/// before it, at the greatest of the stamps up to its own. `NoMemory` comes only when memory runs out.
pub fn arrived<C: Classify>(
    alloc: Global,
    classify: &C,
    records: &Records,
) -> Result<Vec<Arrived>, NoMemory>
    ensures packets { IfOk result (λ all. (capture : List Original) → records.now ≡ map shown_of capture →
        bare_arrivals all.items ≡ bare_arrivals_of (arrivals_of (C.placed classify.now) capture)) }
    ensures count { IfOk result (λ all. length all.items ≡ length records.now) }
    ensures some { IfOk result (λ all. All (λ a. 0 < a.len) (bare_arrivals all.items)) }
    ensures rising { IfOk result (λ all. AreRising (bare_arrivals all.items)) }
{
    let mut all = Vec::with_capacity(alloc, records.len())?;
    let mut latest = 0u64;
    let mut place = 0;
    while let Some(found) = records.get(place) {
        latest = latest.max(found.stamp);
        all.push(arrived_at(classify, found, latest))?;
        place += 1;
    }
    Ok(all)
}
