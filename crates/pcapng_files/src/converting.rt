// The classic capture of a pcapng one.
ghost use Rattle.std.specs.Prelude.{◌≡◌, ◌≤◌, ◌++◌, IfOk, IfErr, OnOk, drop, length, take, vec_len};
ghost use Rattle.capture_model.specs.Header.{capture_header};
ghost use Rattle.pcapng_files.specs.Converted.{IsCause, IsConversion};

use crate::conversion::{CAPTURE_HEAD, Conversion};
use crate::fault::NgFault;
use pcap_files::head_bytes;
use play_base::NoMemory;
use std::alloc::Global;

// Makes room for the head of a capture: a file that is shorter has no packet.
fn with_room(bytes: &mut Vec<u8>) -> Result<(), NoMemory>
    ensures room { OnOk result (24 ≤ vec_len bytes.new) }
    ensures behind { OnOk result (drop 24 bytes.new.items ≡ drop 24 bytes.old.items) }
{
    if bytes.len() < CAPTURE_HEAD {
        bytes.resize(CAPTURE_HEAD, 0)?;
    }
    Ok(())
}

// Puts the head of a capture in place of the first bytes.
fn put_head(bytes: &mut [u8])
    requires { 24 ≤ length bytes.old }
    ensures { bytes.new ≡ capture_header ++ drop 24 bytes.old }
{
    bytes[..CAPTURE_HEAD].copy_from_slice(&head_bytes());
}

// Puts the head of a capture before the records, and cuts the bytes behind the end of the records.
fn finished(bytes: Vec<u8>, end: usize) -> Result<Vec<u8>, NoMemory>
    requires { 24 ≤ end }
    ensures { IfOk result (λ capture. capture.items ≡ capture_header ++ drop 24 (take end bytes.items)) }
{
    let mut capture = bytes;
    with_room(&mut capture)?;
    put_head(capture.as_mut_slice());
    capture.truncate(end);
    Ok(capture)
}

/// The classic capture, little-endian with stamps in nanoseconds, of the packets of a pcapng file, which begins with the type of a
/// section header, `0a 0d 0d 0a`: the same stamps, lengths and captured bytes in the same order. It takes the place of the file's
/// bytes, and is never longer than a file that begins so. `At` comes exactly where a block fails a test, with the place of the first
/// such block and the kind of the first test that it fails. `Limit` comes exactly where the file has more than 2^30 bytes, or holds a
/// packet behind 4,000,000 others, and no test fails before that. `NoMemory` comes only where there was none. One pass over the bytes,
/// of constant time a packet beside the move of its bytes. It takes memory for the interfaces of a section alone, 32 bytes each and at
/// most twice as much.
pub fn convert(alloc: Global, bytes: Vec<u8>) -> Result<Vec<u8>, NgFault>
    ensures converted { IfOk result (λ capture. IsConversion bytes.items capture.items) }
    ensures fault { IfErr result (λ f. IsCause f bytes.items) }
{
    let mut file = bytes;
    let mut conversion = Conversion::start(alloc);
    while conversion.place < file.len() {
        match conversion.next(file.as_mut_slice()) {
            Ok(()) => {}
            Err(fault) => return Err(fault),
        }
    }
    let Ok(capture) = finished(file, conversion.written) else {
        return Err(NgFault::NoMemory);
    };
    Ok(capture)
}
