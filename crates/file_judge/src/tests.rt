// The tests of rows and of departures.
ghost use Rattle.std.specs.Prelude.{◌≡◌, [], IfErr, OnOk, map, true};
ghost use Rattle.altq_model.specs.Lawful.{AreRising};
ghost use Rattle.conf_laws.specs.Fit.{IsInterface};
ghost use Rattle.fate_busy.specs.Busy.{StartsAtOnce};
ghost use Rattle.fate_departures.specs.Departures.{AreDepartures, DepartOtherwise};
ghost use Rattle.fate_judge.specs.Given.{bare_arrivals};
ghost use Rattle.fate_judge.specs.Judged.{PassesAll};
ghost use Rattle.fate_judge.specs.Judged.{IsRefuted as IsRefutedBy};
ghost use Rattle.fate_judge.specs.Walk.{EachRow, FirstFails};
ghost use Rattle.fate_departures.specs.Frames.{bytes_of};
ghost use Rattle.file_judge.specs.Given.{is_unlimited};
ghost use Rattle.file_judge.specs.Verdict.{IfRows, IfTest};
ghost use Rattle.frame_classes.specs.Frames.{dress_in};
ghost use Rattle.given_play.specs.Rights.{allowed_of, marks_of};

use crate::unlimited::{is_unlimited, test_of};
use crate::verdict::Unverified;
use conf_tree::Interface;
use discipline::Classify;
use fate_busy::first_idle;
use fate_check::Row;
use fate_departures::{Frames, first_other_departure};
use fate_judge::{Arrived, Refuted, judge_order};
use file_tests::Test;
use frame_classes::Classifier;
use given_play::{allowed, marks};
use input_files::Records;
use std::alloc::Global;

/// Holds rows to the tests that look at the rows alone.
pub(crate) fn judge_rows(
    alloc: Global,
    interface: &Interface,
    packets: &[Arrived],
    rows: &[Row],
) -> Result<(), Unverified>
    requires { IsInterface interface.now }
    ensures passed { OnOk result (PassesAll (record {
      rate = interface.now.rate;
      classes = allowed_of interface.now;
      arrived = bare_arrivals packets.now;
      rows = rows.now;
    })) }
    ensures refuted { IfErr result (IfRows (IsRefutedBy (record {
      rate = interface.now.rate;
      classes = allowed_of interface.now;
      arrived = bare_arrivals packets.now;
      rows = rows.now;
    }))) }
{
    let classes = allowed(alloc, interface)?;
    match judge_order(alloc, interface.rate, &classes, packets, rows) {
        Ok(()) => Ok(()),
        Err(Refuted::At { row, kind }) => Err(Unverified::At {
            row,
            test: test_of(kind),
        }),
        Err(Refuted::NoMemory) => Err(Unverified::NoMemory),
    }
}

/// Holds rows that pass those to a link that never idles while a packet waits, where that is promised.
pub(crate) fn judge_busy(
    alloc: Global,
    interface: &Interface,
    packets: &[Arrived],
    rows: &[Row],
) -> Result<(), Unverified>
    requires rising { AreRising (bare_arrivals packets.now) }
    requires passed { PassesAll (record {
      rate = interface.now.rate;
      classes = allowed_of interface.now;
      arrived = bare_arrivals packets.now;
      rows = rows.now;
    }) }
    ensures passed { OnOk result (is_unlimited interface.now ≡ true → EachRow (StartsAtOnce (bare_arrivals packets.now) rows.now) [] rows.now) }
    ensures refuted { IfErr result (IfTest Test.Busy (λ row. (is_unlimited interface.now ≡ true)
        × FirstFails (StartsAtOnce (bare_arrivals packets.now) rows.now) rows.now row)) }
{
    if !is_unlimited(interface) {
        return Ok(());
    }
    match first_idle(alloc, packets, rows)? {
        Some(row) => Err(Unverified::At {
            row,
            test: Test::Busy,
        }),
        None => Ok(()),
    }
}

/// Holds departures to the rows.
pub(crate) fn judge_departures(
    alloc: Global,
    interface: &Interface,
    classify: &Classifier,
    packets: &[Arrived],
    records: &Records,
    rows: &[Row],
    departures: &[u8],
) -> Result<(), Unverified>
    requires { ⟦<Classifier as Classify>⟧.dressed classify.now ≡ dress_in interface.now }
    ensures passed { OnOk result (AreDepartures (dress_in interface.now) (record {
      arrived = bare_arrivals packets.now;
      frames = map bytes_of records.now;
      marks = marks_of interface.now;
    }) rows.now departures.now) }
    ensures refuted { IfErr result (IfTest Test.Departures (DepartOtherwise (dress_in interface.now) (record {
      arrived = bare_arrivals packets.now;
      frames = map bytes_of records.now;
      marks = marks_of interface.now;
    }) rows.now departures.now)) }
{
    let marks = marks(alloc, interface)?;
    let frames = Frames {
        arrived: packets,
        records,
        marks: &marks,
    };
    match first_other_departure(alloc, classify, &frames, rows, departures)? {
        Some(row) => Err(Unverified::At {
            row,
            test: Test::Departures,
        }),
        None => Ok(()),
    }
}
