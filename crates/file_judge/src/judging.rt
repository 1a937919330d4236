// The least test that given files fail.
ghost use Rattle.std.specs.Prelude.{◌≡◌, ◌≤◌, ℕ, List, IfErr, IfOk, length, map};
ghost use Rattle.capture_model.specs.Capture.{Record as Original};
ghost use Rattle.conf_laws.specs.Fit.{IsInterface};
ghost use Rattle.file_judge.specs.Verdict.{AreVerified, IsUnverified};
ghost use Rattle.given_fates.specs.Fates.{HasFates};
ghost use Rattle.input_files.specs.Records.{shown_of};
ghost use Rattle.interface_policy.specs.Policy.{queue_names};

use crate::due::judge_due;
use crate::tests::{judge_busy, judge_departures, judge_rows};
use crate::verdict::Unverified;
use conf_tree::Interface;
use fate_laws::rows_that_pass;
use fate_timely::Late;
use file_tests::Test;
use frame_classes::Classifier;
use given_fates::Fates;
use given_play::arrived;
use input_files::Records;
use std::alloc::Global;

/// Holds departures and fates to the play of an interface over the records of its arrivals, whoever made them, by the tests of `Test`;
/// it tests neither which class was picked, nor why a packet was dropped. The records are those of a capture, at most 4,000,000. The
/// answer is how late each leaf with a real-time curve that is not 0 everywhere came, in the order of the classes. `At` comes exactly
/// where a test fails, with the least that fails and its first row. `NoMemory` comes only when memory runs out. Takes time in proportion
/// to the files; memory for the packets, and for the bytes of one packet.
pub fn judge(
    alloc: Global,
    interface: &Interface,
    records: &Records,
    departures: &[u8],
    fates: &Fates,
) -> Result<Vec<Late>, Unverified>
    requires interface { IsInterface interface.now }
    requires few { length records.now ≤ 4000000 }
    ensures verified { IfOk result (λ late. (capture : List Original) (text : List ℕ) → records.now ≡ map shown_of capture
        → HasFates (queue_names interface.now) text fates.now
        → AreVerified (record { interface = interface.now; records = capture; departures = departures.now; fates = text }) late.items) }
    ensures refuted { IfErr result (λ u. (capture : List Original) (text : List ℕ) → records.now ≡ map shown_of capture
        → HasFates (queue_names interface.now) text fates.now
        → IsUnverified (record { interface = interface.now; records = capture; departures = departures.now; fates = text }) u) }
{
    let rows = match fates {
        Fates::Rows(rows) => rows.as_slice(),
        Fates::FailsAt(row) => {
            return Err(Unverified::At {
                row: *row,
                test: Test::Text,
            });
        }
    };
    let classify = Classifier::build(alloc, interface)?;
    let Ok(packets) = arrived(alloc, &classify, records) else {
        return Err(Unverified::NoMemory);
    };
    if let Err(why) = judge_rows(alloc, interface, &packets, rows) {
        return Err(why);
    }
    rows_that_pass();
    if let Err(why) = judge_busy(alloc, interface, &packets, rows) {
        return Err(why);
    }
    let leaving = judge_departures(
        alloc, interface, &classify, &packets, records, rows, departures,
    );
    if let Err(why) = leaving {
        return Err(why);
    }
    match judge_due(alloc, interface, rows) {
        Ok(late) => Ok(late),
        Err(why) => Err(why),
    }
}
