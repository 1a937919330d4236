// Single calls of the crates below, each by the words of a line.

ghost use Rattle.std.specs.Prelude.{IfSome};
ghost use Rattle.service_curve.specs.Curve.{IsInRange};

use crate::openings::deadline_over;
use case_bytes::{add_hex, frame_of, number};
use packet_heads::{FlowHeads, flow};
use service_curve::Curve;
use std::alloc::Global;

// The range of a curve: bits per second, and nanoseconds.
const STEEPEST: u64 = 1_000_000_000_000;

const LONGEST: u64 = 1_000_000_000_000_000;

// The curve of these words, if it is in range.
fn curve_of(m1: &str, d: &str, m2: &str) -> Option<Curve>
    ensures { IfSome result (λ curve. IsInRange curve) }
{
    let (m1, d, m2) = (number(m1)?, number(d)?, number(m2)?);
    if m1 <= STEEPEST && d <= LONGEST && m2 <= STEEPEST {
        Some(Curve { m1, d, m2 })
    } else {
        None
    }
}

/// Of a curve: the units that it gives in a time, the least time in which it gives some units, or their deadline over openings; `None`
/// inside where there is none.
pub fn of_curve(words: &[&str]) -> Option<Option<u128>> {
    let [m1, d, m2, what, count, rest @ ..] = words else {
        return None;
    };
    let curve = curve_of(m1, d, m2)?;
    let count = u128::from(number(count)?);
    if *what == "deadline" {
        return deadline_over(curve, count, rest);
    }
    if !rest.is_empty() {
        return None;
    }
    if *what == "at" {
        return Some(Some(curve.amount(count)));
    }
    Some(curve.first(count))
}

/// Makes the frame of a packet with these heads, and adds what the program reads as its flow.
pub fn add_flow_of(alloc: Global, answer: &mut String, heads: &[&str]) -> Option<()> {
    let frame = frame_of(alloc, heads)?;
    add_flow(answer, flow(&frame))
}

fn add_flow(answer: &mut String, heads: FlowHeads) -> Option<()> {
    match heads {
        FlowHeads::V4 {
            tos,
            protocol,
            source,
            target,
            ports,
        } => add_ip(answer, [tos, protocol], source, target, ports),
        FlowHeads::V6 {
            tos,
            protocol,
            source,
            target,
            ports,
        } => add_ip(answer, [tos, protocol], source, target, ports),
        FlowHeads::Other => answer.push_str("other").ok(),
    }
}

// Adds the heads of a packet of IPv4 or IPv6.
fn add_ip(
    answer: &mut String,
    [tos, protocol]: [u8; 2],
    source: &[u8],
    target: &[u8],
    ports: Option<(u16, u16)>,
) -> Option<()> {
    write!(answer, "tos {tos} protocol {protocol} ").ok()?;
    add_hex(answer, source)?;
    answer.push_str(" > ").ok()?;
    add_hex(answer, target)?;
    add_ports(answer, ports)
}

// Adds the ports of a flow, if it has any.
fn add_ports(answer: &mut String, ports: Option<(u16, u16)>) -> Option<()> {
    match ports {
        Some((from, to)) => write!(answer, " ports {from} > {to}").ok(),
        None => answer.push_str(" no ports").ok(),
    }
}
