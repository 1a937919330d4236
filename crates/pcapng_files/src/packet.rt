// The packet of an enhanced packet block.
ghost use Rattle.std.specs.Prelude.{◌≡◌, ◌≤◌, ◌+◌, map, slice_get, Some, IfOk, IfErr, OnOk, length};
ghost use Rattle.capture_model.specs.Written.{FitsCapture};
ghost use Rattle.pcapng_model.specs.Block.{Packet as PacketFound, Refuses, Tells, count_in, packet_on, told_packet};
ghost use Rattle.pcapng_model.specs.Number.{number, padded};
ghost use Rattle.pcapng_files.specs.Converted.{IsRefusal};
ghost use Rattle.pcapng_files.specs.Views.{interface, packet};

use crate::fault::Refusal;
use crate::interface::Interface;
use crate::numbers::four;
use crate::options::padded;
use pcapng_model::NgKind;

// The most packets of a file.
pub const MOST_PACKETS: u32 = 4_000_000;

const LONGEST: u32 = 262_144;

const ETHERNET: u16 = 1;

// The bytes of a body before the captured ones.
pub const HEAD: usize = 20;

// The packet of a body: its stamp in nanoseconds, the count of its captured bytes, and the length that it had on the wire.
#[derive(Clone, Copy)]
pub struct Packet {
    pub stamp: u64,
    pub captured: u32,
    pub original: u32,
}

// The count of units of a packet's time stamp: two words, the high one first.
fn count_in(big: bool, body: &[u8]) -> u64
    requires { 20 ≤ length body.now }
    ensures { result ≡ count_in big body.now }
{
    u64::from(four(big, body, 4)) * (1 << 32) + u64::from(four(big, body, 8))
}

// The packet of a body that holds all its captured bytes, on this interface; or the first of the other tests that it fails.
fn packet_on(from: &Interface, big: bool, body: &[u8]) -> Result<Packet, NgKind>
    requires { 20 + padded (number big 4 body.now 12) ≤ length body.now }
    ensures ok { IfOk result (λ p. packet_on (Some (interface from.now)) big body.now ≡ Tells (PacketFound (packet body.now p))) }
    ensures within { IfOk result (λ p. FitsCapture (packet body.now p)) }
    ensures short { IfOk result (λ p. 20 + p.captured ≤ length body.now) }
    ensures err { IfErr result (λ kind. packet_on (Some (interface from.now)) big body.now ≡ Refuses kind) }
{
    let captured = four(big, body, 12);
    let original = four(big, body, 16);
    if from.link != ETHERNET {
        return Err(NgKind::BadLink);
    }
    if captured > LONGEST || original > LONGEST {
        return Err(NgKind::LongRecord);
    }
    if captured == 0 && original == 0 {
        return Err(NgKind::EmptyRecord);
    }
    let Some(stamp) = from.stamp(count_in(big, body)) else {
        return Err(NgKind::BadStamp);
    };
    Ok(Packet {
        stamp,
        captured,
        original,
    })
}

// The packet that a body holds behind `count` others, or the first test that the body fails, or the limit.
pub fn packet_in(
    big: bool,
    body: &[u8],
    interfaces: &[Interface],
    count: u32,
) -> Result<Packet, Refusal>
    ensures ok { IfOk result (λ p. told_packet big body.now (map interface interfaces.now) count ≡ Tells (PacketFound (packet body.now p))) }
    ensures within { IfOk result (λ p. FitsCapture (packet body.now p)) }
    ensures short { IfOk result (λ p. 20 + p.captured ≤ length body.now) }
    ensures few { OnOk result (count ≡ 4000000 → ⊥) }
    ensures some { OnOk result (1 ≤ length interfaces.now) }
    ensures err { IfErr result (λ r. IsRefusal r (told_packet big body.now (map interface interfaces.now) count)) }
{
    if body.len() < HEAD {
        return Err(Refusal::Broken(NgKind::BadBlock));
    }
    if body.len() < HEAD + padded(four(big, body, 12) as usize) {
        return Err(Refusal::Broken(NgKind::BadBlock));
    }
    if count == MOST_PACKETS {
        return Err(Refusal::Limit);
    }
    let Some(from) = interface_at(interfaces, four(big, body, 0)) else {
        return Err(Refusal::Broken(NgKind::UnknownInterface));
    };
    match packet_on(&from, big, body) {
        Ok(packet) => Ok(packet),
        Err(kind) => Err(Refusal::Broken(kind)),
    }
}

// The interface of this number, counted from 0.
fn interface_at(interfaces: &[Interface], number: u32) -> Option<Interface>
    ensures { result ≡ slice_get interfaces.now number }
{
    interfaces.get(number as usize).copied()
}
