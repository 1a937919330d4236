// Filters over two classes in strict order.

use crate::over_strict::{HEAD, ended};
use memory_files::SteadyFiles;
use play_base::NoMemory;
use std::test::Fail;

// The head of a record of 60 captured bytes, of a packet of 1,000 bytes at 0.
const RECORD: [u8; 16] = [0, 0, 0, 0, 0, 0, 0, 0, 60, 0, 0, 0, 232, 3, 0, 0];

// A UDP datagram over IPv4 from 10.0.0.1 port 1027 to 10.0.0.2, up to its second port.
const DATAGRAM: [u8; 36] = [
    2, 0, 0, 0, 0, 2, 2, 0, 0, 0, 0, 1, 8, 0, 0x45, 0, 0, 46, 0, 0, 0, 0, 64, 17, 0, 0, 10, 0, 0,
    1, 10, 0, 0, 2, 4, 3,
];

// Adds the record of a datagram to this port.
fn add_datagram(capture: &mut Vec<u8>, port: u16) -> Result<(), NoMemory> {
    capture.extend_from_slice(&RECORD)?;
    capture.extend_from_slice(&DATAGRAM)?;
    capture.extend_from_slice(&port.to_be_bytes())?;
    capture.extend_from_slice(&[0; 22])?;
    Ok(())
}

// Two datagrams, of which the filter takes the second alone, by its port: it goes first, and each takes a millisecond.
#[test]
fn filters_over_strict(rt: HostRuntime) -> Result<(), Fail> {
    let mut capture = Vec::new(rt.alloc());
    capture.extend_from_slice(&HEAD)?;
    add_datagram(&mut capture, 5001)?;
    add_datagram(&mut capture, 5004)?;
    let mut files = SteadyFiles::new(rt.alloc());
    files.put("in", &capture)?;
    let fault = ended(rt.alloc(), &mut files, 8_000_000)?;
    assert!(rt; fault == None);
    let rows =
        b"number,arrival,length,class,fate,start,end\n2,0,1000,voice,share,0,1000000\n1,0,1000,data,share,1000000,2000000\n";
    assert!(rt; files.get("fates").unwrap_or_default() == rows.as_slice());
    Ok(())
}
