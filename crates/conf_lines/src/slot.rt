//! What one word says where a word of a kind is wanted, or the kind of its fault.
ghost use Rattle.std.specs.Prelude.{◌≡◌, ◌≤◌};
ghost use Rattle.line_text.specs.Names.{is_name_byte, is_name};
ghost use Rattle.conf_lines.specs.Slots.{is_text, are_plain, rate_in, whole_in, skipped_in, protocol_in, mask_in, address_in, address6_in, prefix_in};
ghost use Rattle.line_text.specs.Numbers.{cut};

use crate::fault::ConfKind;
use crate::item::What;
use line_text::{Token, cut, decimal, ip4, ip6, rate, whole};

/// Whether a word is this text.
#[tactic(auto, unfolding(crate::specs::Slots::is_text))]
pub(crate) fn is_text(text: &str, word: &[u8]) -> bool
    ensures { result ≡ is_text text.now word.now }
{
    word == text.as_bytes()
}

/// Whether each byte of a word is one of 33 to 126.
#[tactic(auto, unfolding(crate::specs::Slots::are_plain))]
pub(crate) fn are_plain(word: &[u8]) -> bool
    ensures { result ≡ are_plain word.now }
{
    for byte in word {
        if *byte < 33 || *byte > 126 {
            return false;
        }
    }
    true
}

/// Whether a byte may stand in a NAME.
fn is_name_byte(byte: u8) -> bool
    ensures { result ≡ is_name_byte byte }
{
    byte.is_ascii_alphanumeric() || matches!(byte, b'_' | b'-' | b'.' | b':' | b'/')
}

/// Whether a word is a NAME: 1 to 64 letters, digits, `_`, `-`, `.`, `:` or `/`.
pub(crate) fn is_name(word: &[u8]) -> bool
    ensures { result ≡ is_name word.now }
{
    if word.is_empty() || word.len() > 64 {
        return false;
    }
    for byte in word {
        if !is_name_byte(*byte) {
            return false;
        }
    }
    true
}

/// A RATE in a range, in bits per second.
#[tactic(auto, unfolding(crate::specs::Slots::rate_in))]
pub(crate) fn rate_in(low: u64, high: u64, word: &Token) -> Result<u64, ConfKind>
    ensures { result ≡ rate_in low high word.now.parts.now }
{
    match rate(word) {
        _ if !are_plain(word.parts) => Err(ConfKind::BadByte),
        None => Err(ConfKind::BadNumber),
        Some(value) if value < low || value > high => Err(ConfKind::RateRange),
        Some(value) => Ok(value),
    }
}

/// A WHOLE in a range.
#[tactic(auto, unfolding(crate::specs::Slots::whole_in))]
pub(crate) fn whole_in(low: u64, high: u64, word: &Token) -> Result<u64, ConfKind>
    ensures { result ≡ whole_in low high word.now.parts.now }
{
    if !are_plain(word.parts) {
        return Err(ConfKind::BadByte);
    }
    match whole(word) {
        Some(value) if value >= low && value <= high => Ok(value),
        _ => Err(ConfKind::BadNumber),
    }
}

/// A WORD without effect.
#[tactic(auto, unfolding(crate::specs::Slots::skipped_in))]
pub(crate) fn skipped_in(word: &Token) -> Result<What, ConfKind>
    ensures { result ≡ skipped_in word.now.parts.now }
{
    if are_plain(word.parts) {
        Ok(What::Skipped)
    } else {
        Err(ConfKind::BadByte)
    }
}

/// A protocol: a number of 0 to 255, or one of three words.
#[tactic(auto, unfolding(crate::specs::Slots::protocol_in))]
pub(crate) fn protocol_in(word: &Token) -> Result<u64, ConfKind>
    ensures { result ≡ protocol_in word.now.parts.now }
{
    if is_text("icmp", word.parts) {
        Ok(1)
    } else if is_text("tcp", word.parts) {
        Ok(6)
    } else if is_text("udp", word.parts) {
        Ok(17)
    } else {
        whole_in(0, 255, word)
    }
}

/// A mask of an IPv4 address.
#[tactic(auto, unfolding(crate::specs::Slots::mask_in))]
pub(crate) fn mask_in(word: &Token) -> Result<What, ConfKind>
    ensures { result ≡ mask_in word.now.parts.now }
{
    if !are_plain(word.parts) {
        return Err(ConfKind::BadByte);
    }
    match ip4(word) {
        None => Err(ConfKind::BadAddress),
        Some(address) => Ok(What::Ip4(address)),
    }
}

/// An address of a `filter`: `0`, or an IPv4 address.
#[tactic(auto, unfolding(crate::specs::Slots::address_in))]
pub(crate) fn address_in(word: &Token) -> Result<What, ConfKind>
    ensures { result ≡ address_in word.now.parts.now }
{
    if is_text("0", word.parts) {
        Ok(What::Any)
    } else {
        mask_in(word)
    }
}

/// An address of a `filter6`: `0`, or an IPv6 address with its prefix length.
#[tactic(auto, unfolding(crate::specs::Slots::address6_in))]
pub(crate) fn address6_in(word: &Token) -> Result<What, ConfKind>
    ensures { result ≡ address6_in word.now.parts.now }
{
    if is_text("0", word.parts) {
        return Ok(What::Any);
    }
    if !are_plain(word.parts) {
        return Err(ConfKind::BadByte);
    }
    match prefix_in(word) {
        None => Err(ConfKind::BadAddress),
        Some(what) => Ok(what),
    }
}

/// An IPv6 address, or one, `/` and a prefix length of at most 128 in decimal digits.
fn prefix_in(word: &Token) -> Option<What>
    ensures { result ≡ prefix_in word.now.parts.now (cut 47 word.now.parts.now) }
{
    match cut(b'/', word.parts) {
        None => Some(What::Ip6(ip6(word)?, 128)),
        Some((front, behind)) => {
            let address = ip6(&Token {
                index: word.index,
                parts: front,
            })?;
            let bits = decimal(behind)?;
            if bits <= 128 {
                Some(What::Ip6(address, bits as u8))
            } else {
                None
            }
        }
    }
}
