//! The addresses that words write.
ghost use Rattle.std.specs.Prelude.{◌≡◌, ℕ, ◌≤◌, ◌+◌, option_map, MatchOption, IfSome, length, IsSomeAnd, OnSome, ◌<◌, ◌++◌};
ghost use Rattle.line_text.specs.Numbers.{cut};
ghost use Rattle.line_text.specs.Addresses.{octet, ip4_of, group, groups_of, side, gap_from, gap, around, all_groups, ip6_of};

use crate::number::{cut, number};
use crate::word::Token;
use arrayvec::ArrayVec;

/// The address of IPv4 that a word writes: four decimal numbers of 1 to 3 digits, each at most 255, joined by points.
///
/// `None` exactly where the word is not of this form. Takes the word's length in time and no memory. Source: altq.conf(5).
pub fn ip4(word: &Token) -> Option<[u8; 4]>
    ensures { result ≡ ip4_of word.now.parts.now }
{
    let (first, rest) = cut(b'.', word.parts)?;
    let (second, rest) = cut(b'.', rest)?;
    let (third, fourth) = cut(b'.', rest)?;
    let a = octet(first)?;
    let b = octet(second)?;
    let c = octet(third)?;
    let d = octet(fourth)?;
    Some([a, b, c, d])
}

/// A decimal number of 1 to 3 digits, at most 255.
fn octet(text: &[u8]) -> Option<u8>
    ensures { result ≡ octet text.now }
{
    let value = number(10, text)?;
    if text.len() <= 3 && value <= 255 {
        Some(value as u8)
    } else {
        None
    }
}

/// The address of IPv6 that a word writes: eight groups of 1 to 4 hexadecimal digits joined by colons, or fewer with one
/// `::` that stands for one or more groups of zero. An IPv4 address within is not of this form.
///
/// `None` exactly where the word is not of this form. Takes the word's length in time and no memory. Source: RFC 4291, 2.2.
pub fn ip6(word: &Token) -> Option<[u8; 16]>
    ensures { result ≡ ip6_of word.now.parts.now }
{
    match gap(word.parts) {
        None => all_groups(groups_of(word.parts)?),
        Some((front, back)) => {
            let front = side(front)?;
            let back = side(back)?;
            around(front, back.as_slice())
        }
    }
}

/// What stands before the first `::`, and what stands behind it.
fn gap(text: &[u8]) -> Option<(&[u8], &[u8])>
    ensures { option_map (λ p. (p.0.now, p.1.now)) result ≡ gap text.now }
{
    let at = gap_place(text)?;
    Some((&text[..at], &text[at + 2..]))
}

/// The place of the first `::`.
fn gap_place(text: &[u8]) -> Option<usize>
    ensures value { result ≡ gap_from 0 text.now }
    ensures within { IfSome result (λ at. at + 2 ≤ length text.now) }
{
    let mut at = 0;
    while at + 1 < text.len() {
        if text[at] == b':' && text[at + 1] == b':' {
            return Some(at);
        }
        at += 1;
    }
    None
}

/// The groups on one side of `::`, of which there may be none.
fn side(text: &[u8]) -> Option<ArrayVec<u8, 16>>
    ensures { option_map (λ bytes. bytes.items) result ≡ side text.now }
{
    if text.is_empty() {
        Some(ArrayVec::new())
    } else {
        groups_of(text)
    }
}

/// The bytes of at most eight groups.
fn groups_of(text: &[u8]) -> Option<ArrayVec<u8, 16>>
    ensures { option_map (λ bytes. bytes.items) result ≡ groups_of text.now }
{
    let mut bytes = ArrayVec::new();
    let mut rest = text;
    loop {
        match cut(b':', rest) {
            Some((piece, behind)) => {
                add_group(&mut bytes, piece)?;
                rest = behind;
            }
            None => {
                add_group(&mut bytes, rest)?;
                return Some(bytes);
            }
        }
    }
}

/// Adds the bytes of a group, if the text is one and there is room for it.
fn add_group(bytes: &mut ArrayVec<u8, 16>, text: &[u8]) -> Option<()>
    ensures fits { OnSome result (length bytes.new.items ≤ 16) }
    ensures added { MatchOption result (IfSome (group text.now) (λ _. 14 < length bytes.old.items))
        (λ _. IsSomeAnd (group text.now) (λ pair. bytes.new.items ≡ bytes.old.items ++ pair)) }
{
    let pair = group(text)?;
    bytes.try_extend_from_slice(&pair).ok()
}

/// The two bytes of a group: 1 to 4 hexadecimal digits.
fn group(text: &[u8]) -> Option<[u8; 2]>
    ensures { result ≡ group text.now }
{
    let value = number(16, text)?;
    if text.len() <= 4 {
        Some([(value / 256) as u8, (value % 256) as u8])
    } else {
        None
    }
}

/// An address of eight groups.
fn all_groups(bytes: ArrayVec<u8, 16>) -> Option<[u8; 16]>
    ensures { result ≡ all_groups bytes.items }
{
    bytes.into_inner().ok()
}

/// The two sides of `::`, which stands for at least one group of zero.
fn around(mut front: ArrayVec<u8, 16>, back: &[u8]) -> Option<[u8; 16]>
    ensures { result ≡ around front.items back.now }
{
    let zeros = [0u8; 16];
    let len = front.len() + back.len();
    if len > 14 {
        return None;
    }
    front.try_extend_from_slice(&zeros[..16 - len]).ok()?;
    front.try_extend_from_slice(back).ok()?;
    front.into_inner().ok()
}
