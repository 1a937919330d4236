// Lines of which each byte is printable, made from forms.
ghost use Rattle.std.specs.Prelude.{◌≡◌, ◌≤◌};

use std::alloc::{AllocError, Global};

// A byte as it is shown: itself where it is 32 to 126, else `?`.
pub(crate) fn shown_byte(byte: u8) -> u8
    ensures low { 32 ≤ result }
    ensures high { result ≤ 126 }
    ensures same { 32 ≤ byte → byte ≤ 126 → result ≡ byte }
{
    if byte < 32 || byte > 126 { b'?' } else { byte }
}

// Adds bytes as they are shown.
fn add_shown(text: &mut String, bytes: &[u8]) -> Result<(), AllocError> {
    for byte in bytes {
        text.push(char::from(shown_byte(*byte)))?;
    }
    Ok(())
}

// Adds a form: each `@` in it is the name, each `%` the word, and each `#` the next of the numbers.
pub(crate) fn add_form(
    text: &mut String,
    form: &str,
    name: &str,
    word: &[u8],
    numbers: &[u64],
) -> Result<(), AllocError> {
    let mut next = 0usize;
    for byte in form.as_bytes() {
        match *byte {
            b'@' => add_shown(text, name.as_bytes())?,
            b'%' => add_shown(text, word)?,
            b'#' => {
                let number = numbers.get(next).copied().unwrap_or(0);
                write!(text, "{number}")?;
                next = next.saturating_add(1);
            }
            plain => text.push(char::from(plain))?,
        }
    }
    Ok(())
}

// A form as a line.
pub(crate) fn line(
    alloc: Global,
    form: &str,
    name: &str,
    word: &[u8],
    numbers: &[u64],
) -> Result<String, AllocError> {
    let mut text = String::new(alloc);
    add_form(&mut text, form, name, word, numbers)?;
    text.push('\n')?;
    Ok(text)
}
