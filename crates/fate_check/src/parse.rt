// A row of fates at the front of a text.
ghost use Rattle.std.specs.Prelude.{◌≡◌, IfSome, Some, option_map};
ghost use Rattle.fate_check.specs.Front.{FateStands, RuleStands};
ghost use Rattle.line_text.specs.Numbers.{cut};
ghost use Rattle.fate_check.specs.Parse.{dropped_of, fate_of, fields_of, len_of, number_of, reason_of, row_in, row_of, rule_of, sent_of};
ghost use Rattle.fate_check.specs.RowFields.{texts_in};

use crate::front::{long_number_before, number_before};
use crate::reading::Row;
use altq_model::{Fate, Reason, Rule};
use line_text::{cut, decimal};
use play_text::Names;

// The seven fields of a row.
#[derive(Clone, Copy)]
pub(crate) struct RowFields<'a> {
    number: &'a [u8],
    at: &'a [u8],
    len: &'a [u8],
    class: &'a [u8],
    word: &'a [u8],
    start: &'a [u8],
    end: &'a [u8],
}

// The number that digits write without a leading zero.
#[tactic(auto, unfolding(crate::specs::Parse::number_of))]
fn number_in(text: &[u8]) -> Option<u64>
    ensures { result ≡ number_of text.now }
{
    if text.len() > 1 && text[0] == b'0' {
        return None;
    }
    decimal(text)
}

#[tactic(auto, unfolding(crate::specs::Parse::len_of))]
fn len_in(text: &[u8]) -> Option<u32>
    ensures { result ≡ len_of text.now }
{
    u32::try_from(number_in(text)?).ok()
}

#[tactic(auto, unfolding(crate::specs::Parse::rule_of))]
fn rule_named(word: &[u8]) -> Option<Rule>
    ensures { result ≡ rule_of word.now }
{
    if word == b"realtime".as_slice() {
        return Some(Rule::RealTime);
    }
    if word == b"share".as_slice() {
        return Some(Rule::Share);
    }
    if word == b"own".as_slice() {
        return Some(Rule::Own);
    }
    if word == b"borrow".as_slice() {
        return Some(Rule::Borrow);
    }
    None
}

#[tactic(auto, unfolding(crate::specs::Parse::reason_of))]
fn reason_named(word: &[u8]) -> Option<Reason>
    ensures { result ≡ reason_of word.now }
{
    if word == b"full".as_slice() {
        return Some(Reason::Full);
    }
    if word == b"early".as_slice() {
        return Some(Reason::Early);
    }
    if word == b"forced".as_slice() {
        return Some(Reason::Forced);
    }
    None
}

// A sending, by the texts of its start and its end.
#[tactic(auto, unfolding(crate::specs::Parse::sent_of))]
fn sent_by(rule: Rule, start: &[u8], end: &[u8]) -> Option<Fate>
    ensures { result ≡ sent_of rule start.now end.now }
{
    let start = number_in(start)?;
    let end = number_in(end)?;
    Some(Fate::Sent { start, end, rule })
}

// A drop, which has neither start nor end.
#[tactic(auto, unfolding(crate::specs::Parse::dropped_of))]
fn dropped_by(word: &[u8], start: &[u8], end: &[u8]) -> Option<Fate>
    ensures { result ≡ dropped_of word.now start.now end.now }
{
    let reason = reason_named(word)?;
    if start.is_empty() && end.is_empty() {
        Some(Fate::Dropped(reason))
    } else {
        None
    }
}

#[tactic(auto, unfolding(crate::specs::Parse::fate_of, crate::specs::Parse::fate_by))]
fn fate_in(word: &[u8], start: &[u8], end: &[u8]) -> Option<Fate>
    ensures { result ≡ fate_of word.now start.now end.now }
{
    match rule_named(word) {
        Some(rule) => sent_by(rule, start, end),
        None => dropped_by(word, start, end),
    }
}

// The fields at the front of a text, and what stands behind them.
#[tactic(auto, unfolding(crate::specs::Parse::fields_of))]
fn fields_in(text: &[u8]) -> Option<(RowFields<'_>, &[u8])>
    ensures { option_map (λ p. (texts_in p.0, p.1.now)) result ≡ fields_of text.now }
{
    let (number, text) = cut(b',', text)?;
    let (at, text) = cut(b',', text)?;
    let (len, text) = cut(b',', text)?;
    let (class, text) = cut(b',', text)?;
    let (word, text) = cut(b',', text)?;
    let (start, text) = cut(b',', text)?;
    let (end, text) = cut(b'\n', text)?;
    Some((
        RowFields {
            number,
            at,
            len,
            class,
            word,
            start,
            end,
        },
        text,
    ))
}

#[tactic(auto, unfolding(crate::specs::Parse::row_in))]
fn row_by(fields: RowFields<'_>, names: &Names) -> Option<Row>
    ensures { result ≡ row_in names.now (texts_in fields.entry) }
{
    let number = number_in(fields.number)?;
    let at = number_in(fields.at)?;
    let len = len_in(fields.len)?;
    let class = names.class(fields.class)?;
    let fate = fate_in(fields.word, fields.start, fields.end)?;
    Some(Row {
        number,
        at,
        len,
        class,
        fate,
    })
}

// The rule whose word is the field at the front of a text, and what stands behind its comma. One look at each word is cheaper than to
// search for the comma first, and the longest word is looked at only where its first letter stands.
fn rule_before(text: &[u8]) -> Option<(Rule, &[u8])>
    ensures { IfSome result (λ p. RuleStands text.now p.0 p.1.now) }
{
    if text.first() == Some(&b'r') {
        let behind = text.strip_prefix(b"realtime".as_slice())?;
        let rest = behind.strip_prefix(b",".as_slice())?;
        return Some((Rule::RealTime, rest));
    }
    if let Some(rest) = text.strip_prefix(b"share,".as_slice()) {
        return Some((Rule::Share, rest));
    }
    if let Some(rest) = text.strip_prefix(b"own,".as_slice()) {
        return Some((Rule::Own, rest));
    }
    if let Some(rest) = text.strip_prefix(b"borrow,".as_slice()) {
        return Some((Rule::Borrow, rest));
    }
    None
}

// The fate that the three fields at the front of a text write, and what stands behind them. Where none is found there may still be
// one.
fn fate_before(text: &[u8]) -> Option<(Fate, &[u8])>
    ensures { IfSome result (λ p. FateStands text.now p.0 p.1.now) }
{
    let Some((rule, text)) = rule_before(text) else {
        let (word, text) = cut(b',', text)?;
        let (start, text) = cut(b',', text)?;
        let (end, rest) = cut(b'\n', text)?;
        return Some((fate_in(word, start, end)?, rest));
    };
    let (start, text) = long_number_before(b',', text)?;
    let (end, text) = long_number_before(b'\n', text)?;
    Some((Fate::Sent { start, end, rule }, text))
}

// The same as `cut`, in a loop of its own: between the numbers it has too much to hold.
#[inline(never)]
fn field_before(mark: u8, text: &[u8]) -> Option<(&[u8], &[u8])>
    ensures { option_map (λ p. (p.0.now, p.1.now)) result ≡ cut mark text.now }
{
    cut(mark, text)
}

// The row at the front of a text, and what stands behind it, where its numbers are found in one look. Where none is found there may
// still be one.
fn row_before<'a>(text: &'a [u8], names: &Names) -> Option<(Row, &'a [u8])>
    ensures { IfSome result (λ p. row_of names.now text.now ≡ Some (p.0, p.1.now)) }
{
    let (number, text) = number_before(b',', text)?;
    let (at, text) = long_number_before(b',', text)?;
    let (len, text) = number_before(b',', text)?;
    let (class, text) = field_before(b',', text)?;
    let (fate, text) = fate_before(text)?;
    let Ok(len) = u32::try_from(len) else {
        return None;
    };
    let row = Row {
        number,
        at,
        len,
        class: names.class(class)?,
        fate,
    };
    Some((row, text))
}

// The row at the front of a text, and what stands behind it.
#[tactic(auto, unfolding(crate::specs::Parse::row_of))]
pub(crate) fn row_at<'a>(text: &'a [u8], names: &Names) -> Option<(Row, &'a [u8])>
    ensures { option_map (λ p. (p.0, p.1.now)) result ≡ row_of names.now text.now }
{
    let found = row_before(text, names);
    if found.is_some() {
        return found;
    }
    let (fields, rest) = fields_in(text)?;
    Some((row_by(fields, names)?, rest))
}
