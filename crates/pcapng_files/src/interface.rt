// An interface, and the stamps of its packets.
ghost use Rattle.std.specs.Prelude.{◌≤◌};

use crate::numbers::two;
use crate::options::options;
use crate::units::{NANOS, Offset, fraction, offset_of, units_of};
use pcapng_model::NgKind;

// An interface of a section: its link type, how many units of its time stamps make a second, and what is added to each.
#[derive(Clone, Copy)]
pub struct Interface {
    pub link: u16,
    units: u64,
    offset: Offset,
    ghost some: { 1 ≤ units },
}

impl Interface {
    ghost use Rattle.std.specs.Prelude.{◌≡◌, ◌≤◌, ◌<◌, ◌*◌, ◌^◌, IfOk, IfErr, IfSome};
    ghost use Rattle.pcapng_model.specs.Interface.{stamp};
    ghost use Rattle.pcapng_model.specs.Block.{NewInterface, Refuses, Tells, told_interface};
    ghost use Rattle.pcapng_files.specs.Views.{interface};

    // The interface that the body of a block describes, or the first test that the body fails.
    pub fn read(big: bool, body: &[u8]) -> Result<Interface, NgKind>
        ensures ok { IfOk result (λ i. told_interface big body.now ≡ Tells (NewInterface (interface i))) }
        ensures err { IfErr result (λ kind. told_interface big body.now ≡ Refuses kind) }
    {
        if body.len() < 8 {
            return Err(NgKind::BadBlock);
        }
        let Some(set) = options(big, &body[8..]) else {
            return Err(NgKind::BadBlock);
        };
        let Some(units) = units_of(set.resolution) else {
            return Err(NgKind::BadResolution);
        };
        Ok(Interface {
            link: two(big, body, 0),
            units,
            offset: offset_of(set.offset),
        })
    }

    // The stamp of a packet, in nanoseconds, by its count of units; None before the epoch, or 2^32 seconds or more behind it.
    pub fn stamp(&self, count: u64) -> Option<u64>
        ensures value { result ≡ stamp (interface self.now) count }
        ensures early { IfSome result (λ stamp. stamp < 2 ^ 32 * 10 ^ 9) }
    {
        let seconds = match self.offset.moved(count / self.units) {
            Some(seconds) => seconds,
            None => return None,
        };
        Some(seconds * NANOS + fraction(count % self.units, self.units))
    }
}
