// The least test that rows fail.
ghost use Rattle.std.specs.Prelude.{◌≤◌, ◌<◌, ◌^◌, IfErr, OnOk};
ghost use Rattle.fate_judge.specs.Given.{bare_arrivals};
ghost use Rattle.fate_judge.specs.Judged.{IfAt, IsRefuted, PassesAll};

use crate::all::all_pass;
use crate::ends::first_other_end;
use crate::given::{Allowed, Arrived, Kind, Refuted};
use crate::moments::first_early;
use crate::once::first_again;
use crate::order::first_out_of_order;
use crate::reading::first_unread;
use fate_check::Row;
use std::alloc::Global;

// Holds rows to each test in turn.
fn judge_each(
    alloc: Global,
    rate: u64,
    classes: &[Allowed],
    arrived: &[Arrived],
    rows: &[Row],
) -> Result<(), Refuted>
    requires some { 0 < rate }
    requires most { rate ≤ 10 ^ 12 }
    ensures passed { OnOk result (PassesAll (record { rate = rate; classes = classes.now; arrived = bare_arrivals arrived.now; rows = rows.now })) }
    ensures refuted { IfErr result (IfAt (IsRefuted (record { rate = rate; classes = classes.now; arrived = bare_arrivals arrived.now; rows = rows.now }))) }
{
    if let Some(row) = first_unread(classes, arrived, rows) {
        return Err(Refuted::At {
            row,
            kind: Kind::Reading,
        });
    }
    let Ok(again) = first_again(alloc, arrived.len(), rows) else {
        return Err(Refuted::NoMemory);
    };
    if let Some(row) = again {
        return Err(Refuted::At {
            row,
            kind: Kind::EachOnce,
        });
    }
    let Ok(unordered) = first_out_of_order(alloc, classes.len(), rows) else {
        return Err(Refuted::NoMemory);
    };
    if let Some(row) = unordered {
        return Err(Refuted::At {
            row,
            kind: Kind::Order,
        });
    }
    if let Some(row) = first_early(rows) {
        return Err(Refuted::At {
            row,
            kind: Kind::Moments,
        });
    }
    if let Some(row) = first_other_end(rate, rows) {
        return Err(Refuted::At {
            row,
            kind: Kind::Ends,
        });
    }
    Ok(())
}

/// Holds rows of fates to the tests of `Kind`, for the packets that arrived at a link of `rate` bits per second, 1 to 10^12, and for
/// what can become of packets in each class: `classes` stands in order of class. It is the part of a check that looks at the rows
/// alone; it tests neither that the link is busy, nor which class was picked, nor why a packet was dropped.
///
/// `At` comes exactly where a test fails, with the least kind that fails and its first row. `NoMemory` comes only where memory is
/// wanted: a byte for each packet and 16 bytes for each class are taken. Rows that pass cost one pass over them; of others each test is
/// one pass more. All numbers are reckoned whole, so a row may hold any.
pub fn judge_order(
    alloc: Global,
    rate: u64,
    classes: &[Allowed],
    arrived: &[Arrived],
    rows: &[Row],
) -> Result<(), Refuted>
    requires some { 0 < rate }
    requires most { rate ≤ 10 ^ 12 }
    ensures passed { OnOk result (PassesAll (record { rate = rate; classes = classes.now; arrived = bare_arrivals arrived.now; rows = rows.now })) }
    ensures refuted { IfErr result (IfAt (IsRefuted (record { rate = rate; classes = classes.now; arrived = bare_arrivals arrived.now; rows = rows.now }))) }
{
    if let Ok(true) = all_pass(alloc, rate, classes, arrived, rows) {
        return Ok(());
    }
    judge_each(alloc, rate, classes, arrived, rows)
}
