// Writing what was decided: a record for each sending, and a row for each fate.
ghost use Rattle.std.specs.Prelude.{◌≡◌, ◌≤◌, ◌<◌, ◌*◌, ◌^◌, ℕ, List, length, IsSome, Some, IfErr, OnOk, OnErr};
ghost use Rattle.play_base.specs.View.{SameCounts, Wrote, WroteFront};
ghost use Rattle.play_base.specs.Holds.{HoldsAt};
ghost use Rattle.play_text.specs.Statistics.{stats_of};
ghost use Rattle.class_counts.specs.Counting.{AreCountable};
ghost use Rattle.play_loop.specs.Kept.{OnlyWrote};
ghost use Rattle.play_loop.specs.Outputs.{AddsDropped, AddsOnly, AddsSent, CanAdd, HasFronts, HasTexts, IsStatsCause, IsWriteCause, StopsDropped, StopsSent, dressed};

use crate::outputs::{Outputs, output_fault};
use crate::{Output, PlayFault};
use altq_model::{Counts, Fate};
use class_counts::{Counted, count};
use discipline::Classify;
use gathered_writes::{FateRow, flush, flush_rows, gather_record, gather_row};
use play_base::{Files, write_all};
use play_core::{Departure, Dropped};
use play_text::{Names, stats_text};
use std::alloc::Global;

// Rewrites the bytes of a sent packet as they leave: marked, or with the code point cleared, as `classify` has it.
fn dress_packet<C: Classify>(classify: &C, departure: &mut Departure)
    ensures { departure.new ≡ dressed (C.dressed classify.now) departure.old }
{
    let class = departure.class;
    let marked = departure.marked;
    classify.dress(class, marked, departure.packet.bytes.as_mut_slice());
}

/// Counts a packet that was sent, and adds its record, with the bytes with which it leaves, and then its row. After an error each file
/// holds a front of its text.
#[tactic(auto, using(play_base::proofs::ViewLaws::same_trans, play_base::proofs::ViewLaws::same_refl))]
#[inline(always)]
pub fn write_sent<C: Classify, F: Files>(
    files: &mut F,
    outputs: &mut Outputs,
    names: &Names,
    classify: &C,
    mut departure: Departure,
) -> Result<(), PlayFault>
    requires can { CanAdd names.now (F.view files.old) outputs.old departure.class }
    requires early { departure.end < 2 ^ 32 * 10 ^ 9 }
    requires within { length departure.packet.bytes ≤ departure.packet.len }
    ensures added { OnOk result (AddsSent (C.dressed classify.now) names.now (F.view files.old) (F.view files.new) outputs.old outputs.new departure) }
    ensures stopped { OnErr result (StopsSent (C.dressed classify.now) names.now (F.view files.old) (F.view files.new) outputs.old departure) }
    ensures only { AddsOnly (F.view files.old) (F.view files.new) outputs.old outputs.new result }
{
    let class = departure.class;
    let len = departure.packet.len;
    let end = departure.end;
    count(&mut outputs.counts, names, class, Counted::Sent { len });
    dress_packet(classify, &mut departure);
    let bytes = departure.packet.bytes.as_slice();
    let file = outputs.departures;
    match gather_record(files, file, &mut outputs.records, end, bytes, len) {
        Ok(()) => {}
        Err(trouble) => return Err(output_fault(Output::Departures, trouble)),
    }
    let row = FateRow {
        number: departure.packet.number,
        at: departure.packet.at,
        len: departure.packet.len,
        class,
        fate: Fate::Sent {
            start: departure.start,
            end: departure.end,
            rule: departure.rule,
        },
    };
    match gather_row(files, outputs.fates, &mut outputs.rows, names, row) {
        Ok(()) => {
            outputs.spare.leave(departure.packet.bytes);
            Ok(())
        }
        Err(trouble) => Err(output_fault(Output::Fates, trouble)),
    }
}

/// Counts a packet that was offered to a class and dropped, and adds its row. After an error each file holds a front of its text.
#[tactic(auto, using(play_base::proofs::ViewLaws::same_trans, play_base::proofs::ViewLaws::same_refl))]
#[inline(always)]
pub fn write_dropped<F: Files>(
    files: &mut F,
    outputs: &mut Outputs,
    names: &Names,
    class: u32,
    dropped: Dropped,
) -> Result<(), PlayFault>
    requires can { CanAdd names.now (F.view files.old) outputs.old class }
    ensures added { OnOk result (AddsDropped names.now (F.view files.old) (F.view files.new) outputs.old outputs.new class (Some dropped)) }
    ensures stopped { OnErr result (StopsDropped names.now (F.view files.old) (F.view files.new) outputs.old class (Some dropped)) }
    ensures only { AddsOnly (F.view files.old) (F.view files.new) outputs.old outputs.new result }
{
    let Dropped {
        number,
        at,
        len,
        reason,
    } = dropped;
    count(&mut outputs.counts, names, class, Counted::Dropped(reason));
    let row = FateRow {
        number,
        at,
        len,
        class,
        fate: Fate::Dropped(reason),
    };
    match gather_row(files, outputs.fates, &mut outputs.rows, names, row) {
        Ok(()) => Ok(()),
        Err(trouble) => Err(output_fault(Output::Fates, trouble)),
    }
}

/// Writes what is gathered, the departures first. After an error each file holds a front of its text.
#[tactic(auto, using(play_base::proofs::ViewLaws::same_trans, play_base::proofs::ViewLaws::same_refl))]
pub fn finish<F: Files>(files: &mut F, outputs: &mut Outputs) -> Result<(), PlayFault>
    requires departures { IsSome ((F.view files.old).part outputs.old.departures) }
    requires fates { IsSome ((F.view files.old).part outputs.old.fates) }
    ensures departures_whole { OnOk result ((ds ts : List ℕ) → HasTexts (F.view files.old) outputs.old ds ts →
        HoldsAt (F.view files.new) outputs.old.departures ds) }
    ensures fates_whole { OnOk result ((ds ts : List ℕ) → HasTexts (F.view files.old) outputs.old ds ts →
        HoldsAt (F.view files.new) outputs.old.fates ts) }
    ensures counts { outputs.new.counts.items ≡ outputs.old.counts.items }
    ensures no_fault { OnOk result (SameCounts (F.view files.old) (F.view files.new)) }
    ensures stopped { OnErr result ((ds ts : List ℕ) → HasTexts (F.view files.old) outputs.old ds ts →
        HasFronts (F.view files.new) outputs.old ds ts) }
    ensures others { OnlyWrote outputs.old.departures outputs.old.fates (F.view files.old) (F.view files.new) }
    ensures why { IfErr result (IsWriteCause outputs.old.departures outputs.old.fates (F.view files.old) (F.view files.new)) }
{
    match flush(files, outputs.departures, &mut outputs.records) {
        Ok(()) => {}
        Err(trouble) => return Err(output_fault(Output::Departures, trouble)),
    }
    match flush_rows(files, outputs.fates, &mut outputs.rows) {
        Ok(()) => Ok(()),
        Err(trouble) => Err(output_fault(Output::Fates, trouble)),
    }
}

/// Writes the statistics of these counts. After an error the file holds a front of them.
#[tactic(auto, using(play_base::proofs::ViewLaws::same_trans, play_base::proofs::ViewLaws::same_refl))]
pub fn write_stats<F: Files>(
    alloc: Global,
    files: &mut F,
    file: u32,
    names: &Names,
    counts: &[Counts],
) -> Result<(), PlayFault>
    requires there { IsSome ((F.view files.old).part file) }
    requires countable { AreCountable names.now counts.now }
    ensures wrote { OnOk result (Wrote (F.view files.old) (F.view files.new) file (stats_of names.now counts.now)) }
    ensures no_fault { OnOk result (SameCounts (F.view files.old) (F.view files.new)) }
    ensures front { OnErr result (WroteFront (F.view files.old) (F.view files.new) file (stats_of names.now counts.now)) }
    ensures why { IfErr result (IsStatsCause file (F.view files.old) (F.view files.new)) }
{
    let Ok(text) = stats_text(alloc, names, counts) else {
        return Err(PlayFault::NoMemory);
    };
    match write_all(files, file, text.as_slice()) {
        Ok(()) => Ok(()),
        Err(trouble) => Err(output_fault(Output::Statistics, trouble)),
    }
}
