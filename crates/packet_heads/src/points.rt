// The precedence of a packet.
ghost use Rattle.std.specs.Prelude.{◌≡◌, ◌<◌};
ghost use Rattle.packet_heads.specs.Heads.{flow_of};
ghost use Rattle.packet_heads.specs.Points.{precedence, precedence_of};

use crate::FlowHeads;

/// The drop precedence of a packet by the code point of its headers (RFC 2474, RFC 2597): 0, 1 or 2 for a point 8i + 2,
/// 8i + 4 or 8i + 6 with i from 1 to 4, and 0 for every other point and for `Other`. Constant time.
pub fn precedence(heads: &FlowHeads) -> u8
    ensures value { result ≡ precedence (flow_of heads.now) }
    ensures bound { result < 3 }
{
    match heads {
        FlowHeads::V4 { tos, .. } => precedence_of(*tos >> 2),
        FlowHeads::V6 { tos, .. } => precedence_of(*tos >> 2),
        FlowHeads::Other => 0,
    }
}

/// The drop precedence of a code point, as `precedence` says it. Constant time.
pub fn precedence_of(point: u8) -> u8
    ensures value { result ≡ precedence_of point }
    ensures bound { result < 3 }
{
    match point {
        12 | 20 | 28 | 36 => 1,
        14 | 22 | 30 | 38 => 2,
        _ => 0,
    }
}
