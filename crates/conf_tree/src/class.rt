//! Classes.

use conf_lines::Text;
use service_curve::Curve;
use traffic_meter::MeterRule;

/// How a queue decides whether an arriving packet is kept.
#[derive(Clone, Copy)]
pub enum DropRule {
    /// It keeps each packet that finds room.
    Tail,
    /// Random early detection, after Floyd and Jacobson, 1993.
    Red,
    /// RED that marks an ECN-capable packet in place of an early drop, after RFC 3168.
    Ecn,
    /// RED with in and out, after Clark and Fang, 1998.
    Rio,
}

/// A class of an interface. In an HFSC class `rate`, `priority`, `maxburst` and `packetsize` are 0, and `borrow` and
/// `control` are false; in a CBQ class `real`, `share` and `upper` are `None`.
#[derive(Drop)]
pub struct Class {
    /// Its name, which no other class of its interface has.
    pub name: Text,
    /// The number of its parent among the classes of its interface; `None` for the root.
    pub parent: Option<u32>,
    /// Its real-time curve. A class that is a parent has none.
    pub real: Option<Curve>,
    /// Its link-sharing curve, which each HFSC class but the root has. That of the root has no effect.
    pub share: Option<Curve>,
    /// Its upper limit, both slopes of which are at least 1,000.
    pub upper: Option<Curve>,
    /// Its rate in bits per second, 1,000 to 10^12.
    pub rate: u64,
    /// Its priority, 0 to 7; the greatest goes first.
    pub priority: u8,
    /// Whether it may borrow from its parent.
    pub borrow: bool,
    /// Whether packets of ICMP, IGMP, RSVP and ICMPv6 that no filter matches go to it.
    pub control: bool,
    /// How many packets it may send back to back, 1 to 1,000.
    pub maxburst: u32,
    /// The length in bytes of the packets that its burst is reckoned with, 1 to 262,144.
    pub packetsize: u32,
    /// How many packets its queue holds, 1 to 10,000.
    pub limit: u32,
    /// How its queue drops.
    pub drop: DropRule,
    /// Whether the code point of its departing packets is cleared.
    pub clear: bool,
    /// Whether it is the default class, to which the packets go that no filter matches.
    pub is_default: bool,
    /// The meter that marks its packets, if it has a conditioner: rates of 1,000 to 10^12, `pir` at least `cir`; `cbs` and `pbs` of 1
    /// to 2^30, `ebs` of 0 to 2^30; `af` of 1 to 4.
    pub meter: Option<MeterRule>,
}
