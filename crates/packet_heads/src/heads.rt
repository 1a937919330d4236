// The flow of a frame.
ghost use Rattle.std.specs.Prelude.{◌≡◌, ◌≤◌, ◌+◌, ◌*◌, IsTrue, length, slice_index};
ghost use Rattle.packet_heads.specs.Flow.{two_at, has_bytes, is_tag_at, type_place, flow, flow_by_type, is_head_4, flow_4, is_head_6, flow_6, packet_place, HasAddresses, ports_4, ports_at, traffic_class};
ghost use Rattle.packet_heads.specs.Departing.{tos_of};
ghost use Rattle.packet_heads.specs.Heads.{flow_of};

/// The flow of a frame. The addresses are parts of the frame, four bytes each in `V4` and sixteen in `V6`. `tos` is the
/// type of service of IPv4 or the traffic class of IPv6, `protocol` the number of the protocol that the packet carries,
/// and `ports` are the source's and then the target's, of TCP and UDP alone.
#[derive(Clone, Copy)]
pub enum FlowHeads<'a> {
    V4 {
        tos: u8,
        protocol: u8,
        source: &'a [u8],
        target: &'a [u8],
        ports: Option<(u16, u16)>,
    },
    V6 {
        tos: u8,
        protocol: u8,
        source: &'a [u8],
        target: &'a [u8],
        ports: Option<(u16, u16)>,
    },
    /// Neither, or cut short.
    Other,
}

// The types of a frame.
const IPV4: u16 = 0x0800;

const IPV6: u16 = 0x86dd;

const CUSTOMER_TAG: u16 = 0x8100;

const SERVICE_TAG: u16 = 0x88a8;

// The protocols that have ports.
const TCP: u8 = 6;

const UDP: u8 = 17;

/// The flow of a frame, whose bytes begin with the target's address of Ethernet. At most two tags are passed. A header of
/// IPv4 has at least 20 bytes, says version 4 and at least five words; one of IPv6 has 40 bytes and says version 6; any
/// other frame is `Other`. The ports are there where the protocol is TCP or UDP, the packet is no later fragment, and all
/// four bytes of both stand behind the header. Constant time; does not allocate. See RFC 791, RFC 8200 and IEEE 802.1Q.
#[inline(always)]
pub fn flow(frame: &[u8]) -> FlowHeads<'_>
    ensures value { flow_of result ≡ flow frame.now }
    ensures parts { HasAddresses frame.now (packet_place frame.now) (flow_of result) }
{
    // Most frames have no tag, and hold IPv4.
    if has_bytes(2, frame, 12) && two_at(frame, 12) == IPV4 {
        return flow_4(&frame[14..]);
    }
    flow_behind_tags(frame)
}

// The same of any frame: its type is looked for behind the tags.
fn flow_behind_tags(frame: &[u8]) -> FlowHeads<'_>
    ensures value { flow_of result ≡ flow frame.now }
    ensures parts { HasAddresses frame.now (packet_place frame.now) (flow_of result) }
{
    let place = type_place(frame);
    if !has_bytes(2, frame, place) {
        return FlowHeads::Other;
    }
    flow_by_type(two_at(frame, place), &frame[place + 2..])
}

/// The type of service or traffic class in the flow of a frame, 0 where that is `Other`. Nothing else of the flow is read.
/// Constant time; does not allocate.
pub fn tos(frame: &[u8]) -> u8
    ensures { result ≡ tos_of (flow frame.now) }
{
    let place = type_place(frame);
    if !has_bytes(2, frame, place) {
        return 0;
    }
    tos_by_type(two_at(frame, place), &frame[place + 2..])
}

// The same of the packet that a frame of a type holds.
fn tos_by_type(kind: u16, packet: &[u8]) -> u8
    ensures { result ≡ tos_of (flow_by_type kind packet.now) }
{
    match kind {
        IPV4 if is_head_4(packet) => packet[1],
        IPV6 if is_head_6(packet) => traffic_class(packet),
        _ => 0,
    }
}

// Where the packet begins, behind the type.
pub(crate) fn packet_place(frame: &[u8]) -> usize
    ensures value { result ≡ packet_place frame.now }
    ensures bound { result ≤ 22 }
{
    type_place(frame) + 2
}

// The flow of the packet that a frame of a type holds.
fn flow_by_type(kind: u16, packet: &[u8]) -> FlowHeads<'_>
    ensures { flow_of result ≡ flow_by_type kind packet.now }
{
    match kind {
        IPV4 => flow_4(packet),
        IPV6 => flow_6(packet),
        _ => FlowHeads::Other,
    }
}

// Whether `count` bytes stand from the place `at` on.
fn has_bytes(count: usize, bytes: &[u8], at: usize) -> bool
    requires { at + count ≤ 1000 }
    ensures { result ≡ has_bytes count bytes.now at }
{
    at + count <= bytes.len()
}

// The number in two bytes.
pub(crate) fn two_at(bytes: &[u8], at: usize) -> u16
    requires { IsTrue (has_bytes 2 bytes.now at) }
    ensures { result ≡ two_at bytes.now at }
{
    u16::from_be_bytes([bytes[at], bytes[at + 1]])
}

// Whether a tag of four bytes begins there.
fn is_tag_at(frame: &[u8], at: usize) -> bool
    requires { at ≤ 20 }
    ensures { result ≡ is_tag_at frame.now at }
{
    has_bytes(2, frame, at) && matches!(two_at(frame, at), CUSTOMER_TAG | SERVICE_TAG)
}

// Where the type stands, behind at most two tags.
fn type_place(frame: &[u8]) -> usize
    ensures value { result ≡ type_place frame.now }
    ensures bound { result ≤ 20 }
{
    if !is_tag_at(frame, 12) {
        12
    } else if !is_tag_at(frame, 16) {
        16
    } else {
        20
    }
}

// Whether a header of IPv4 begins the packet: 4 in the upper half of its first byte, and 5 or more in the lower one.
fn is_head_4(packet: &[u8]) -> bool
    ensures { result ≡ is_head_4 packet.now }
{
    has_bytes(20, packet, 0) && matches!(packet[0], 0x45..=0x4f)
}

// The flow of a packet of IPv4.
fn flow_4(packet: &[u8]) -> FlowHeads<'_>
    ensures { flow_of result ≡ flow_4 packet.now }
{
    if !is_head_4(packet) {
        return FlowHeads::Other;
    }
    FlowHeads::V4 {
        tos: packet[1],
        protocol: packet[9],
        source: &packet[12..16],
        target: &packet[16..20],
        ports: ports_4(packet),
    }
}

// The ports of a packet of IPv4, if it is the first fragment or none.
fn ports_4(packet: &[u8]) -> Option<(u16, u16)>
    requires { 20 ≤ length packet.now }
    ensures { result ≡ ports_4 packet.now }
{
    if two_at(packet, 6) & 0x1fff != 0 {
        return None;
    }
    let words = packet[0] & 0x0f;
    ports_at(packet, packet[9], 4 * usize::from(words))
}

// Whether a header of IPv6 begins the packet.
fn is_head_6(packet: &[u8]) -> bool
    ensures { result ≡ is_head_6 packet.now }
{
    has_bytes(40, packet, 0) && packet[0] >> 4 == 6
}

// The flow of a packet of IPv6.
fn flow_6(packet: &[u8]) -> FlowHeads<'_>
    ensures { flow_of result ≡ flow_6 packet.now }
{
    if !is_head_6(packet) {
        return FlowHeads::Other;
    }
    FlowHeads::V6 {
        tos: traffic_class(packet),
        protocol: packet[6],
        source: &packet[8..24],
        target: &packet[24..40],
        ports: ports_at(packet, packet[6], 40),
    }
}

// The eight bits behind the version.
fn traffic_class(packet: &[u8]) -> u8
    requires { 2 ≤ length packet.now }
    ensures { result ≡ traffic_class packet.now }
{
    ((two_at(packet, 0) >> 4) & 0xff) as u8
}

// The ports that stand at a place, if the protocol has any.
fn ports_at(packet: &[u8], protocol: u8, at: usize) -> Option<(u16, u16)>
    requires { at ≤ 60 }
    ensures { result ≡ ports_at packet.now protocol at }
{
    if (protocol == TCP || protocol == UDP) && has_bytes(4, packet, at) {
        Some((two_at(packet, at), two_at(packet, at + 2)))
    } else {
        None
    }
}
