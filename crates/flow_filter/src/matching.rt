//! Whether a filter in numbers matches a flow in numbers.
ghost use Rattle.std.specs.Prelude.{◌≡◌};
ghost use Rattle.flow_filter.specs.Entries.{fits_4, fits_6, ports_fit, rest_fits};
ghost use Rattle.flow_filter.specs.Matches.{is_none_or, tos_agrees};

use crate::entry::{Entry4, Entry6, Rest};
use crate::numbers::{Numbers4, Numbers6};

/// Whether an entry fits a flow of IPv4. Addresses, which tell most flows apart at the least cost, are compared first.
#[inline]
pub(crate) fn fits_4(entry: &Entry4, flow: &Numbers4) -> bool
    ensures { result ≡ fits_4 entry.now flow.now }
{
    flow.target & entry.target_mask == entry.target
        && flow.source & entry.source_mask == entry.source
        && is_none_or(u16::from(entry.rest.protocol), u16::from(flow.protocol))
        && rest_fits(&entry.rest, flow.tos, flow.ports)
}

/// Whether an entry fits a flow of IPv6.
#[inline]
pub(crate) fn fits_6(entry: &Entry6, flow: &Numbers6) -> bool
    ensures { result ≡ fits_6 entry.now flow.now }
{
    flow.target & entry.target_mask == entry.target
        && flow.source & entry.source_mask == entry.source
        && is_none_or(u16::from(entry.rest.protocol), u16::from(flow.protocol))
        && rest_fits(&entry.rest, flow.tos, flow.ports)
}

/// Whether the ports and the type of service fit.
fn rest_fits(rest: &Rest, tos: u8, ports: Option<(u16, u16)>) -> bool
    ensures { result ≡ rest_fits rest.now tos ports }
{
    ports_fit(rest, ports) && tos_agrees(rest.tos, tos)
}

/// Whether a filter's number that is not 0 is the flow's.
#[inline]
fn is_none_or(own: u16, number: u16) -> bool
    ensures { result ≡ is_none_or own number }
{
    own == 0 || own == number
}

/// Whether both ports fit.
fn ports_fit(rest: &Rest, ports: Option<(u16, u16)>) -> bool
    ensures { result ≡ ports_fit rest.now ports }
{
    match ports {
        Some((source, target)) => {
            is_none_or(rest.source_port, source) && is_none_or(rest.target_port, target)
        }
        None => rest.source_port == 0 && rest.target_port == 0,
    }
}

/// Whether the type of service or traffic class agrees.
fn tos_agrees(given: Option<(u8, u8)>, tos: u8) -> bool
    ensures { result ≡ tos_agrees given tos }
{
    match given {
        Some((own, mask)) => tos & mask == own,
        None => true,
    }
}
