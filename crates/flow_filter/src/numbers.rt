//! A flow in numbers, made once a packet.
ghost use Rattle.std.specs.Prelude.{◌≡◌, ◌≢◌, ◌<◌, ◌≤◌, IfNone, IfSome, length, option_map};
ghost use Rattle.flow_filter.specs.Numbers.{AreNumbersOf, IsNumberOf, ports_in};
ghost use Rattle.flow_filter.specs.declared.numbers.Numbers.TheVariants as numbers;
ghost use Rattle.packet_heads.specs.Flow as flow;

use byteorder::{BigEndian, ByteOrder};

/// A flow of IPv4, its addresses as numbers.
#[derive(Clone, Copy)]
pub struct Numbers4 {
    pub source: u32,
    pub target: u32,
    pub tos: u8,
    pub protocol: u8,
    pub ports: Option<(u16, u16)>,
}

/// A flow of IPv6, its addresses as numbers.
#[derive(Clone, Copy)]
pub struct Numbers6 {
    pub source: u128,
    pub target: u128,
    pub tos: u8,
    pub protocol: u8,
    pub ports: Option<(u16, u16)>,
}

/// A flow of either version.
#[derive(Clone, Copy)]
pub enum Numbers {
    V4(Numbers4),
    V6(Numbers6),
}

/// The number of the first four bytes of an address.
pub(crate) fn number_4(address: &[u8]) -> u32
    requires { 4 ≤ length address.now }
    ensures { IsNumberOf 4 address.now result }
{
    BigEndian::read_u32(address)
}

/// The number of the first sixteen bytes of an address.
pub(crate) fn number_6(address: &[u8]) -> u128
    requires { 16 ≤ length address.now }
    ensures { IsNumberOf 16 address.now result }
{
    BigEndian::read_u128(address)
}

/// The number of the first four bytes of an address, if it has as many.
fn whole_4(address: &[u8]) -> Option<u32>
    ensures number { IfSome result (IsNumberOf 4 address.now) }
    ensures short { IfNone result (length address.now < 4) }
{
    if address.len() < 4 {
        return None;
    }
    Some(number_4(address))
}

/// The number of an address of sixteen bytes, if it is one.
fn whole_6(address: &[u8]) -> Option<u128>
    ensures number { IfSome result (λ number. (length address.now ≡ 16) × IsNumberOf 16 address.now number) }
    ensures other { IfNone result (length address.now ≢ 16) }
{
    if address.len() != 16 {
        return None;
    }
    Some(number_6(address))
}

/// A flow of IPv4 in numbers. None where an address is too short.
#[inline]
pub(crate) fn numbers_4(
    tos: u8,
    protocol: u8,
    source: &[u8],
    target: &[u8],
    ports: Option<(u16, u16)>,
) -> Option<Numbers4>
    ensures { AreNumbersOf (flow.V4 (record { tos = tos; protocol = protocol; source = source.now; target = target.now; ports = ports }))
        (option_map numbers.V4 result) }
{
    Some(Numbers4 {
        source: whole_4(source)?,
        target: whole_4(target)?,
        tos,
        protocol,
        ports,
    })
}

/// A flow of IPv6 in numbers. None where an address has not sixteen bytes.
#[inline]
pub(crate) fn numbers_6(
    tos: u8,
    protocol: u8,
    source: &[u8],
    target: &[u8],
    ports: Option<(u16, u16)>,
) -> Option<Numbers6>
    ensures { AreNumbersOf (flow.V6 (record { tos = tos; protocol = protocol; source = source.now; target = target.now; ports = ports }))
        (option_map numbers.V6 result) }
{
    Some(Numbers6 {
        source: whole_6(source)?,
        target: whole_6(target)?,
        tos,
        protocol,
        ports,
    })
}

/// The ports of a flow, the source's first.
pub(crate) fn ports_in(numbers: &Numbers) -> Option<(u16, u16)>
    ensures { result ≡ ports_in numbers.now }
{
    match numbers {
        Numbers::V4(flow) => flow.ports,
        Numbers::V6(flow) => flow.ports,
    }
}
