// What a chain tells of its two links: the line of a status, and the parts by which faults are counted.

use file_plans::{Entry, Part, Way, open_next};
use memory_files::{Call, MemoryFiles};
use pcapng_model::{NgKind, NgPlace};
use run_outcomes::{CaptureStop, Failure, Link, Status, status_of};
use std::alloc::Global;
use std::test::Fail;

// A status of a chain.
fn status(code: u8, line: u64, place: u64, kind: u8) -> Status {
    Status {
        code,
        line,
        word: 0,
        place,
        kind,
    }
}

#[test]
fn line_is_the_link(rt: HostRuntime) {
    let block = NgPlace {
        place: 48,
        kind: NgKind::ShortBlock,
    };
    let cut = status_of(Err(Failure::Capture(Link::First, CaptureStop::Block(block))));
    let long = status_of(Err(Failure::Capture(Link::First, CaptureStop::TooLong)));
    let late = status_of(Err(Failure::Capture(Link::Second, CaptureStop::Late)));
    assert!(rt;
        cut == status(4, 1, 48, 9) && long == status(7, 1, 0, 1) && late == status(7, 2, 0, 2)
    );
}

#[test]
fn limits_of_given_files(rt: HostRuntime) {
    let fates = status_of(Err(Failure::TooLong(Part::Fates)));
    let departures = status_of(Err(Failure::TooLong(Part::Departures)));
    assert!(rt; fates == status(7, 0, 0, 4) && departures == status(7, 0, 0, 5));
}

// How many faults of a part are counted where its file cannot be created.
fn faults_of(alloc: Global, part: Part) -> Result<u64, Fail> {
    let mut files = MemoryFiles::new(alloc);
    files.fail_at(Call::Create, 0)?;
    let way = Way::Written;
    let name = "out2";
    let _ = open_next(&mut files, &Entry { part, name, way });
    Ok(files.write_faults(part.number()))
}

#[test]
fn second_outputs_are_parts_7_to_9(rt: HostRuntime) -> Result<(), Fail> {
    let numbers = (
        Part::SecondDepartures.number(),
        Part::SecondFates.number(),
        Part::SecondStatistics.number(),
    );
    let departures = faults_of(rt.alloc(), Part::SecondDepartures)?;
    let fates = faults_of(rt.alloc(), Part::SecondFates)?;
    let stats = faults_of(rt.alloc(), Part::SecondStatistics)?;
    assert!(rt; numbers == (7, 8, 9) && departures == 1 && fates == 1 && stats == 1);
    Ok(())
}
