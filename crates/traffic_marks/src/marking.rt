// The mark of one frame.
ghost use Rattle.std.specs.Prelude.{◌≡◌, ◌≤◌, ◌∷◌, List, length};
ghost use Rattle.traffic_meter.specs.History.{Metered, Represents, after, colour_after, colour_of};
ghost use Rattle.traffic_marks.specs.Marked.{assured_class, coloured_frame};

use crate::metering::metered_tos;
use packet_heads::{retag, tos};
use traffic_meter::Meter;

/// Marks the frame of a packet of `len` bytes that arrives at `moment`, in nanoseconds, not before the packet before: asks its
/// class's meter for the colour, and gives the frame the code point of that colour in class `af` of assured forwarding, which is
/// that of the meter's rule, at most 4. `len` counts the whole packet with its link header, also where the frame was cut. The bits
/// of ECN stay, and the checksum of IPv4 follows. A frame that is neither IPv4 nor IPv6 is metered and stays as it is. Constant
/// time; does not allocate. See RFC 2597, RFC 2474 and RFC 1624.
pub fn mark(meter: &mut Meter, af: u8, moment: u64, len: u32, frame: &mut [u8])
    requires in_order { meter.old.buckets.moment ≤ moment }
    requires class { af ≡ assured_class meter.old.rule }
    requires assured { af ≤ 4 }
    ensures frame { frame.new ≡ coloured_frame meter.old.rule
        (colour_of meter.old.rule meter.old.buckets (record { moment = moment; len = len })) frame.old }
    ensures history_frame { (h : List Metered) → Represents meter.old h
        → frame.new ≡ coloured_frame meter.old.rule (colour_after meter.old.rule h (record { moment = moment; len = len })) frame.old }
    ensures long { length frame.new ≡ length frame.old }
    ensures rule { meter.new.rule ≡ meter.old.rule }
    ensures buckets { meter.new.buckets ≡ after meter.old.rule meter.old.buckets (record { moment = moment; len = len }) }
    ensures moment { meter.new.buckets.moment ≡ moment }
    ensures history { (h : List Metered) → Represents meter.old h
        → Represents meter.new (record { moment = moment; len = len } ∷ h) }
{
    let tos = metered_tos(meter, af, moment, len, tos(frame));
    retag(frame, tos);
}
