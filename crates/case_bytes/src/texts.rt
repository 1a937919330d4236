// Texts of files, and bytes as text.

/// Adds the text of a file, and says where the file or its last line feed is missing.
pub fn add_text(answer: &mut String, bytes: Option<&[u8]>) -> Option<()> {
    let text = match bytes {
        Some(bytes) => str::from_utf8(bytes).unwrap_or("no text\n"),
        None => "absent\n",
    };
    answer.push_str(text).ok()?;
    if text.is_empty() || text.ends_with('\n') {
        return Some(());
    }
    answer.push_str("\nwithout a line feed\n").ok()
}

/// Adds lines of a text, from one number to another, of which the first is 1.
pub fn add_lines(answer: &mut String, text: &str, from: u64, to: u64) -> Option<()> {
    let mut here = 0u64;
    for line in text.lines() {
        here = here.wrapping_add(1);
        if from <= here && here <= to {
            write!(answer, "{line}\n").ok()?;
        }
    }
    Some(())
}

/// Adds bytes in hexadecimal.
pub fn add_hex(answer: &mut String, bytes: &[u8]) -> Option<()> {
    for byte in bytes {
        write!(answer, "{byte:02x}").ok()?;
    }
    Some(())
}
