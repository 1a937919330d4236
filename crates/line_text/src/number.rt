//! The numbers that words write: whole numbers and rates.
ghost use Rattle.std.specs.Prelude.{◌≡◌, ℕ, ◌+◌, ◌*◌, ◌^◌, ◌<◌, ◌≤◌, ◌==◌, option_map, IfSome, SomeIff, length};
ghost use Rattle.std.specs.Char.{digit_value};
ghost use Rattle.std.specs.List.{position};
ghost use Rattle.line_text.specs.Numbers.{are_digits, number, whole_of, cut, multiple_of, scaled, mantissa, rate_of};

use crate::word::Token;

/// The whole number that a word writes: decimal digits, or `0x` and hexadecimal digits of either case, leading zeros
/// included.
///
/// `None` exactly where the word is not of this form, or the number is 2^64 or more. Takes the word's length in time and
/// no memory. Source: altq.conf(5).
pub fn whole(word: &Token) -> Option<u64>
    ensures { result ≡ whole_of word.now.parts.now }
{
    let text = word.parts;
    if text.len() >= 2 && text[0] == b'0' && text[1] == b'x' {
        return number(16, &text[2..]);
    }
    number(10, text)
}

/// The rate that a word writes: decimal digits, optionally a point and 1 to 9 digits, optionally one of K, k, M, m, G and g
/// for 10^3, 10^6 and 10^9 times as much. `1.5M` is 1500000.
///
/// `None` exactly where the word is not of this form, or the rate is not whole, or it is 2^64 or more. Takes the word's
/// length in time and no memory. Source: altq.conf(5).
pub fn rate(word: &Token) -> Option<u64>
    ensures { result ≡ rate_of word.now.parts.now }
{
    let text = word.parts;
    if text.is_empty() {
        return None;
    }
    let multiple = multiple_of(text[text.len() - 1]);
    if multiple > 1 {
        mantissa(multiple, &text[..text.len() - 1])
    } else {
        mantissa(multiple, text)
    }
}

/// `multiple` times the decimal number DIGITS or DIGITS.DIGITS, with 1 to 9 digits behind the point.
fn mantissa(multiple: u64, text: &[u8]) -> Option<u64>
    requires { multiple ≤ 10 ^ 9 }
    ensures { result ≡ mantissa multiple text.now (cut 46 text.now) }
{
    match cut(b'.', text) {
        None => scaled(multiple, 0, number(10, text)?, 0),
        Some((whole, fraction)) => {
            let whole = number(10, whole)?;
            let digits = number(10, fraction)?;
            if fraction.len() > 9 {
                return None;
            }
            scaled(multiple, fraction.len() as u32, whole, digits)
        }
    }
}

/// `multiple` times a number with `places` digits behind its point, if that is whole and below 2^64.
fn scaled(multiple: u64, places: u32, whole: u64, fraction: u64) -> Option<u64>
    requires multiple { multiple ≤ 10 ^ 9 }
    requires places { places ≤ 9 }
    ensures { result ≡ scaled multiple places whole fraction }
{
    let unit = power(places);
    let amount = (u128::from(whole) * unit + u128::from(fraction)) * u128::from(multiple);
    if amount % unit == 0 {
        u64::try_from(amount / unit).ok()
    } else {
        None
    }
}

/// 10 to the power `places`.
fn power(places: u32) -> u128
    requires { places ≤ 9 }
    ensures value { result ≡ 10 ^ places }
    ensures some { 0 < result }
    ensures bound { result ≤ 10 ^ 9 }
{
    10u128.pow(places)
}

/// What the letter at the end of a rate stands for.
fn multiple_of(byte: u8) -> u64
    ensures value { result ≡ multiple_of byte }
    ensures bound { result ≤ 10 ^ 9 }
{
    match byte {
        b'K' | b'k' => 1_000,
        b'M' | b'm' => 1_000_000,
        b'G' | b'g' => 1_000_000_000,
        _ => 1,
    }
}

/// What stands before the first byte `mark` of a text, and what stands behind it; `None` exactly where there is none.
///
/// Takes the text's length in time and no memory.
pub fn cut(mark: u8, text: &[u8]) -> Option<(&[u8], &[u8])>
    ensures value { option_map (λ p. (p.0.now, p.1.now)) result ≡ cut mark text.now }
    ensures shorter { IfSome result (λ p. length p.1.now < length text.now) }
{
    let at = place_of(mark, text)?;
    Some((&text[..at], &text[at + 1..]))
}

/// The place of the first byte `mark`.
fn place_of(mark: u8, text: &[u8]) -> Option<usize>
    ensures value { result ≡ position (λ byte. byte == mark) text.now }
    ensures within { IfSome result (λ at. at < length text.now) }
{
    text.iter().position(|byte| *byte == mark)
}

/// The whole number that decimal digits write, leading zeros included.
///
/// `None` exactly where the text is not one or more decimal digits and nothing else, or the number is 2^64 or more. Takes
/// the text's length in time and no memory.
pub fn decimal(text: &[u8]) -> Option<u64>
    ensures { result ≡ number 10 text.now }
{
    number(10, text)
}

/// The number that one or more digits and nothing else write, if it is below 2^64.
pub(crate) fn number(radix: u32, text: &[u8]) -> Option<u64>
    requires low { 2 ≤ radix }
    requires high { radix ≤ 16 }
    ensures { result ≡ number radix text.now }
{
    let mut value = 0;
    for byte in text {
        value = with_digit(radix, value, *byte)?;
    }
    if text.is_empty() { None } else { Some(value) }
}

/// `value` · `radix` + the digit, if `byte` is a digit of this radix and the result is below 2^64.
fn with_digit(radix: u32, value: u64, byte: u8) -> Option<u64>
    requires low { 2 ≤ radix }
    requires high { radix ≤ 16 }
    ensures { SomeIff result ((digit_value byte < radix) × (value * radix + digit_value byte < 2 ^ 64)) (value * radix + digit_value byte) }
{
    let digit = char::from(byte).to_digit(radix)?;
    let more = u128::from(value) * u128::from(radix) + u128::from(digit);
    u64::try_from(more).ok()
}
