// How far a capture is read by the loop itself.

use crate::over_strict::{HEAD, ended};
use memory_files::{Call, SteadyFiles};
use play_base::NoMemory;
use play_loop::{Limit, PlayFault};
use std::alloc::Global;
use std::test::Fail;

// The least rate that a link may have.
const SLOWEST: u64 = 1000;

// The heads of records of 60 captured bytes at 4,294,965,198 s. A packet of 262,144 bytes at 848,000,000 ns ends at the end of the clock,
// and one of 100 bytes comes a nanosecond later.
const LATE: [u8; 16] = [206, 247, 255, 255, 0, 116, 139, 50, 60, 0, 0, 0, 0, 0, 4, 0];

const BEHIND: [u8; 16] = [
    206, 247, 255, 255, 1, 116, 139, 50, 60, 0, 0, 0, 100, 0, 0, 0,
];

// Adds one packet that ends at the end of the clock, and 2,000 behind it.
fn add_late(capture: &mut Vec<u8>) -> Result<(), NoMemory> {
    capture.extend_from_slice(&HEAD)?;
    capture.extend_from_slice(&LATE)?;
    capture.extend_from_slice(&[0; 60])?;
    for _ in 0..2_000 {
        capture.extend_from_slice(&BEHIND)?;
        capture.extend_from_slice(&[0; 60])?;
    }
    Ok(())
}

// The files of this capture, of which a read moves one byte, and a write seven.
fn late_files(alloc: Global) -> Result<SteadyFiles, NoMemory> {
    let mut capture = Vec::new(alloc);
    add_late(&mut capture)?;
    let mut files = SteadyFiles::new(alloc);
    files.put("in", &capture)?;
    files.chunk(1);
    files.short_writes(7);
    Ok(files)
}

// Nothing behind the second record needs to be read: at most 65,536 bytes are, past its end at byte 176. So at least 86,388 of the
// 152,100 bytes are left.
#[test]
fn reading_stops_at_the_late_sending(rt: HostRuntime) -> Result<(), Fail> {
    let mut files = late_files(rt.alloc())?;
    assert!(rt; files.get("in").unwrap_or_default().len() == 152_100);
    let fault = ended(rt.alloc(), &mut files, SLOWEST)?;
    assert!(rt; fault == Some(PlayFault::Limit(Limit::Clock)));
    assert!(rt; files.calls(Call::Read) <= 176 + 65_536);
    assert!(rt; files.get("fates").unwrap_or_default().len() == 43);
    Ok(())
}
