// A file that is being converted, block by block, in its own place.
ghost use Rattle.std.specs.Prelude.{◌≡◌, ◌≤◌, ◌<◌, ◌+◌, ◌*◌, ◌^◌, None, Some, map, vec_len, length, IfOk, IfErr, IfSome, OnOk};
ghost use Rattle.capture_model.specs.Written.{FitsCapture};
ghost use Rattle.pcapng_model.specs.Block.{Refuses, told, told_interface, told_packet, told_section};
ghost use Rattle.pcapng_model.specs.Reading.{start, step};
ghost use Rattle.pcapng_files.specs.Converted.{IsFault, IsRefusal};
ghost use Rattle.pcapng_files.specs.Converting.{Advanced, IsBehind, Took, place_of};
ghost use Rattle.pcapng_files.specs.Views.{interface, packet};

use crate::block::{Block, SECTION, block_at};
use crate::fault::{NgFault, Refusal};
use crate::interface::Interface;
use crate::numbers::two;
use crate::packet::{Packet, packet_in};
use crate::record::put_found;
use pcapng_model::NgKind;
use std::alloc::Global;

const INTERFACE: u32 = 1;

const OLD_PACKET: u32 = 2;

const SIMPLE_PACKET: u32 = 3;

const ENHANCED_PACKET: u32 = 6;

const MOST_BYTES: usize = 1 << 30;

// The bytes of the head of a classic capture.
pub const CAPTURE_HEAD: usize = 24;

// The bytes of a block before its body.
const BLOCK_HEAD: usize = 8;

// How far a file was converted: the byte order and the interfaces of its section, the count of its packets, the end of the part of the
// classic capture that was written, and the place of the next block. The records stand from byte 24 on. The capture's head is written
// last, because it overwrites the file's first block. A record is at least 16 bytes shorter than its block, so no byte is overwritten
// before it was read.
#[derive(Drop)]
pub struct Conversion {
    pub big: bool,
    pub interfaces: Vec<Interface>,
    pub packets: u32,
    pub written: usize,
    pub place: usize,
}

impl Conversion {
    // Before the first block.
    pub fn start(alloc: Global) -> Conversion
        ensures place { place_of result ≡ start }
        ensures written { result.written ≡ 24 }
        ensures behind { IsBehind result }
    {
        Conversion {
            big: false,
            interfaces: Vec::new(alloc),
            packets: 0,
            written: CAPTURE_HEAD,
            place: 0,
        }
    }

    // Begins the section of a header with this body.
    fn begin_section(&mut self, big: bool, body: &[u8]) -> Result<(), Refusal>
        ensures took { OnOk result (Took self.old self.new (told_section big body.now) body.now None) }
        ensures packets { OnOk result (self.new.packets ≡ self.old.packets) }
        ensures interfaces { OnOk result (vec_len self.new.interfaces ≡ 0) }
        ensures written { self.new.written ≡ self.old.written }
        ensures place { self.new.place ≡ self.old.place }
        ensures err { IfErr result (λ r. IsRefusal r (told_section big body.now)) }
    {
        if body.len() < 16 {
            return Err(Refusal::Broken(NgKind::BadBlock));
        }
        if two(big, body, 4) != 1 {
            return Err(Refusal::Broken(NgKind::BadVersion));
        }
        self.big = big;
        self.interfaces.clear();
        Ok(())
    }

    // Adds the interface that a body describes.
    fn add_interface(&mut self, big: bool, body: &[u8]) -> Result<(), Refusal>
        ensures took { OnOk result (Took self.old self.new (told_interface big body.now) body.now None) }
        ensures packets { OnOk result (self.new.packets ≡ self.old.packets) }
        ensures interfaces { OnOk result (vec_len self.new.interfaces ≡ vec_len self.old.interfaces + 1) }
        ensures written { self.new.written ≡ self.old.written }
        ensures place { self.new.place ≡ self.old.place }
        ensures err { IfErr result (λ r. IsRefusal r (told_interface big body.now)) }
    {
        let described = match Interface::read(big, body) {
            Ok(described) => described,
            Err(kind) => return Err(Refusal::Broken(kind)),
        };
        if self.interfaces.push(described).is_err() {
            return Err(Refusal::NoMemory);
        }
        Ok(())
    }

    // Counts the packet that a body holds, and gives it.
    fn add_packet(&mut self, big: bool, body: &[u8]) -> Result<Packet, Refusal>
        requires few { self.old.packets ≤ 4000000 }
        ensures took { IfOk result (λ p. Took self.old self.new
            (told_packet big body.now (map interface self.old.interfaces.items) self.old.packets) body.now (Some p)) }
        ensures few { OnOk result (self.new.packets ≤ 4000000) }
        ensures within { IfOk result (λ p. FitsCapture (packet body.now p)) }
        ensures short { IfOk result (λ p. 20 + p.captured ≤ length body.now) }
        ensures some { OnOk result (1 ≤ vec_len self.old.interfaces) }
        ensures interfaces { self.new.interfaces ≡ self.old.interfaces }
        ensures written { self.new.written ≡ self.old.written }
        ensures place { self.new.place ≡ self.old.place }
        ensures err { IfErr result (λ r. IsRefusal r
            (told_packet big body.now (map interface self.old.interfaces.items) self.old.packets)) }
    {
        let found = match packet_in(big, body, &self.interfaces, self.packets) {
            Ok(found) => found,
            Err(refusal) => return Err(refusal),
        };
        self.packets += 1;
        Ok(found)
    }

    // Takes in a whole block, and gives its packet, if it is the block of one.
    fn take(&mut self, block: &Block) -> Result<Option<Packet>, Refusal>
        requires few { self.old.packets ≤ 4000000 }
        ensures took { IfOk result (λ p. Took self.old self.new
            (told block.now.big block.now.kind block.now.body.now (map interface self.old.interfaces.items) self.old.packets)
            block.now.body.now p) }
        ensures few { OnOk result (self.new.packets ≤ 4000000) }
        ensures within { IfOk result (λ found. IfSome found (λ p. FitsCapture (packet block.now.body.now p))) }
        ensures short { IfOk result (λ found. IfSome found (λ p. 20 + p.captured ≤ length block.now.body.now)) }
        ensures some { IfOk result (λ found. IfSome found (λ p. 1 ≤ vec_len self.old.interfaces)) }
        ensures interfaces { OnOk result (vec_len self.new.interfaces ≤ vec_len self.old.interfaces + 1) }
        ensures written { self.new.written ≡ self.old.written }
        ensures place { self.new.place ≡ self.old.place }
        ensures err { IfErr result (λ r. IsRefusal r
            (told block.now.big block.now.kind block.now.body.now (map interface self.old.interfaces.items) self.old.packets)) }
    {
        if block.kind == ENHANCED_PACKET {
            return match self.add_packet(block.big, block.body) {
                Ok(packet) => Ok(Some(packet)),
                Err(refusal) => Err(refusal),
            };
        }
        let taken = match block.kind {
            SECTION => self.begin_section(block.big, block.body),
            INTERFACE => self.add_interface(block.big, block.body),
            OLD_PACKET | SIMPLE_PACKET => Err(Refusal::Broken(NgKind::OldPacket)),
            _ => Ok(()),
        };
        match taken {
            Ok(()) => Ok(None),
            Err(refusal) => Err(refusal),
        }
    }

    // Takes in the next block of a file, and writes the record of its packet, if it has one. Its cost is linear in the block.
    pub fn next(&mut self, bytes: &mut [u8]) -> Result<(), NgFault>
        requires here { self.old.place < length bytes.old }
        requires few { self.old.packets ≤ 4000000 }
        requires behind { IsBehind self.old }
        ensures advanced { OnOk result (Advanced bytes.old bytes.new self.old self.new) }
        ensures few { OnOk result (self.new.packets ≤ 4000000) }
        ensures behind { OnOk result (IsBehind self.new) }
        ensures size { length bytes.new ≡ length bytes.old }
        ensures further { OnOk result (self.old.place < self.new.place) }
        ensures within { OnOk result (self.new.place ≤ length bytes.old) }
        ensures small { OnOk result (length bytes.old ≤ 2 ^ 30) }
        ensures err { IfErr result (λ f. IsFault f (step bytes.old (place_of self.old))) }
    {
        if bytes.len() > MOST_BYTES {
            return Err(NgFault::Limit);
        }
        let place = self.place;
        let block = match block_at(self.big, bytes, place) {
            Ok(block) => block,
            Err(kind) => return Err(Refusal::Broken(kind).at(place)),
        };
        let found = match self.take(&block) {
            Ok(found) => found,
            Err(refusal) => return Err(refusal.at(place)),
        };
        self.place = block.after;
        self.written = put_found(bytes, self.written, place + BLOCK_HEAD, &found);
        Ok(())
    }
}
