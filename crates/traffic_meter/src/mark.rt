// The code points that colours give.
ghost use Rattle.std.specs.Prelude.{◌≡◌, ◌≤◌};
ghost use Rattle.traffic_meter.specs.Mark.{code_point, drop_precedence, marked_tos};

use crate::rule::Colour;

// The drop precedence of a colour.
fn drop_precedence(colour: Colour) -> u8
    ensures { result ≡ drop_precedence colour }
{
    match colour {
        Colour::Green => 1,
        Colour::Yellow => 2,
        Colour::Red => 3,
    }
}

/// The code point of class `af` of assured forwarding, at most 4, with the drop precedence of a colour: AF11 is that of class 1 and
/// green (RFC 2597). Constant time; does not allocate.
pub fn code_point(af: u8, colour: Colour) -> u8
    requires { af ≤ 4 }
    ensures { result ≡ code_point af colour }
{
    8 * af + 2 * drop_precedence(colour)
}

/// A type of service or traffic class with that code point, and with the two low bits of `tos`, which are those of ECN. Constant
/// time; does not allocate.
pub fn marked_tos(af: u8, colour: Colour, tos: u8) -> u8
    requires { af ≤ 4 }
    ensures { result ≡ marked_tos af colour tos }
{
    4 * code_point(af, colour) + tos % 4
}
