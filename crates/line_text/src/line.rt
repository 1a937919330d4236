//! Logical lines: where each begins and ends, and how long it is once it is joined.
ghost use Rattle.std.specs.Prelude.{◌≡◌, ℕ, ◌+◌, ◌<◌, ◌≤◌, length, drop, MatchOption};
ghost use Rattle.line_text.specs.Lines.{continuation_len, through_line_feed, line_len, joined, ends};

/// A logical line of a text: the physical line with this number, counted from 1, and those that continue it.
#[derive(Clone, Copy)]
pub struct Line {
    /// The number of its first physical line, from 1.
    pub number: u64,
    /// The place of its first byte.
    pub from: usize,
    /// The place behind its line end.
    pub to: usize,
}

/// The logical line that begins at a place of a text, its line end included, and `None` at the text's end.
///
/// A line feed ends it that stands in no continuation, and so does the end of the text. The next line begins at its `to`.
/// Its number is this one's and the count of the line feeds between the two places. Takes the line's length in time.
/// Source: altq.conf(5).
pub fn next_line(text: &[u8], from: usize, number: u64) -> Option<Line>
    requires { from ≤ length text.now }
    ensures line { MatchOption result (from ≡ length text.now)
        (λ line. (line.number ≡ number) × (line.from ≡ from) × (line.to ≡ from + line_len (drop from text.now))) }
    ensures within { MatchOption result (length text.now ≤ from) (λ line. (from < line.to) × (line.to ≤ length text.now)) }
{
    if from == text.len() {
        return None;
    }
    let to = from + line_len(&text[from..]);
    Some(Line { number, from, to })
}

/// How many bytes the logical line at the front of a text has.
fn line_len(text: &[u8]) -> usize
    ensures value { result ≡ line_len text.now }
    ensures within { result ≤ length text.now }
    ensures some { 0 < length text.now → 0 < result }
{
    let mut at = 0;
    while at < text.len() {
        if text[at] == b'\n' {
            return at + 1;
        }
        if text[at] == b'#' {
            return at + 1 + through_line_feed(&text[at + 1..]);
        }
        at += continuation_len(&text[at..]).max(1);
    }
    at
}

/// How many bytes a text has up to its first line feed and with it, or all where it has none.
fn through_line_feed(text: &[u8]) -> usize
    ensures value { result ≡ through_line_feed text.now }
    ensures within { result ≤ length text.now }
{
    let mut at = 0;
    while at < text.len() {
        if text[at] == b'\n' {
            return at + 1;
        }
        at += 1;
    }
    at
}

/// The length of the continuation at the front of a text, and 0 where none stands there.
#[tactic(auto, unfolding(crate::specs::Lines::continuation_len))]
pub(crate) fn continuation_len(text: &[u8]) -> usize
    ensures value { result ≡ continuation_len text.now }
    ensures within { result ≤ length text.now }
{
    if text.len() >= 2 && text[0] == b'\\' && text[1] == b'\n' {
        return 2;
    }
    if text.len() >= 3 && text[0] == b'\\' && text[1] == b'\r' && text[2] == b'\n' {
        return 3;
    }
    0
}

/// How many bytes a logical line has once it is joined: without comment and line end, each continuation as one blank.
pub(crate) fn joined_len(line: &[u8]) -> usize
    ensures { result ≡ length (joined line.now) }
{
    let mut count = 0;
    let mut at = 0;
    while at < line.len() && !ends_line(line[at]) {
        count += 1;
        at += continuation_len(&line[at..]).max(1);
    }
    count
}

/// Whether a byte ends what a logical line says: its line feed, or the beginning of its comment.
pub(crate) fn ends_line(byte: u8) -> bool
    ensures { result ≡ ends byte }
{
    byte == b'\n' || byte == b'#'
}
