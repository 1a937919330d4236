// Numbers in words.

use line_text::{Token, whole};

/// A decimal number, or one of hexadecimal digits behind `0x`.
pub fn number(text: &str) -> Option<u64> {
    whole(&Token {
        index: 1,
        parts: text.as_bytes(),
    })
}

/// A number of 32 bits.
pub fn word(text: &str) -> Option<u32> {
    u32::try_from(number(text)?).ok()
}
