// Numbers at the front of a text.
ghost use Rattle.std.specs.Prelude.{◌≡◌, ◌≤◌, ◌<◌, ◌+◌, ◌*◌, true, length, take, IfSome};
ghost use Rattle.std.specs.Str.Parse.{digits_value};
ghost use Rattle.line_text.specs.Numbers.{are_digits};
ghost use Rattle.fate_check.specs.Front.{StandsBefore, WritesFirst};

// So many digits write a number below 2^64, whichever they are.
const MOST: usize = 19;

// What is too much where each of eight digits counts as its byte.
const EIGHT_ZEROS: u64 = 533_333_328;

// Two bytes as the digits of a number.
fn pair(high: u8, low: u8) -> u64
    ensures { result ≡ high * 10 + low }
{
    u64::from(high) * 10 + u64::from(low)
}

// A number and what stands behind the mark, if the digits that write it end at the mark, and no zero leads them.
fn behind(mark: u8, value: u64, digits: usize, text: &[u8]) -> Option<(u64, &[u8])>
    requires low { mark < 48 }
    requires inside { digits < length text.now }
    requires digits { are_digits 10 (take digits text.now) ≡ true }
    requires value { value ≡ digits_value 10 (take digits text.now) }
    ensures { IfSome result (λ p. StandsBefore mark text.now p.0 p.1.now) }
{
    if digits == 0 || text[digits] != mark {
        return None;
    }
    if digits > 1 && text[0] == b'0' {
        return None;
    }
    Some((value, &text[digits + 1..]))
}

// The number of eight digits at the front of a text; none where one of the first eight bytes is no digit. One test of all is cheaper
// than eight.
fn eight_digits(text: &[u8]) -> Option<u64>
    ensures { IfSome result (WritesFirst text.now 8) }
{
    if text.len() < 8 {
        return None;
    }
    let all = text[0].is_ascii_digit()
        & text[1].is_ascii_digit()
        & text[2].is_ascii_digit()
        & text[3].is_ascii_digit()
        & text[4].is_ascii_digit()
        & text[5].is_ascii_digit()
        & text[6].is_ascii_digit()
        & text[7].is_ascii_digit();
    if !all {
        return None;
    }
    let first = pair(text[0], text[1]) * 100 + pair(text[2], text[3]);
    let last = pair(text[4], text[5]) * 100 + pair(text[6], text[7]);
    Some(first * 10_000 + last - EIGHT_ZEROS)
}

// The number that the field at the front of a text writes, which ends at a mark, and what stands behind the mark, where some digits
// were read of it. Most numbers are found so, in one look at each digit; where none is, there may still be one.
#[inline(always)]
fn number_on(mark: u8, text: &[u8], value: u64, digits: usize) -> Option<(u64, &[u8])>
    requires low { mark < 48 }
    requires few { digits ≤ 8 }
    requires read { WritesFirst text.now digits value }
    ensures { IfSome result (λ p. StandsBefore mark text.now p.0 p.1.now) }
{
    let most = text.len().min(MOST);
    let mut value = value;
    let mut digits = digits;
    while digits < most {
        let Some(digit) = char::from(text[digits]).to_digit(10) else {
            return behind(mark, value, digits, text);
        };
        value = value * 10 + u64::from(digit);
        digits += 1;
    }
    if digits == text.len() {
        return None;
    }
    behind(mark, value, digits, text)
}

// The number that the field at the front of a text writes, which ends at a mark, and what stands behind the mark, where it is found in
// one look.
pub(crate) fn number_before(mark: u8, text: &[u8]) -> Option<(u64, &[u8])>
    requires { mark < 48 }
    ensures { IfSome result (λ p. StandsBefore mark text.now p.0 p.1.now) }
{
    number_on(mark, text, 0, 0)
}

// The same, for a number that mostly has eight digits or more.
#[inline(always)]
pub(crate) fn long_number_before(mark: u8, text: &[u8]) -> Option<(u64, &[u8])>
    requires { mark < 48 }
    ensures { IfSome result (λ p. StandsBefore mark text.now p.0 p.1.now) }
{
    let (value, digits) = match eight_digits(text) {
        Some(value) => (value, 8),
        None => (0, 0),
    };
    number_on(mark, text, value, digits)
}
