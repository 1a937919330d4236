//! What the items of a statement say.
ghost use Rattle.std.specs.Prelude.{◌≡◌, ◌≤◌, ◌<◌, ◌^◌, IfSome, option_copied, drop};
ghost use Rattle.conf_lines.specs.Options.{slots_of};
ghost use Rattle.conf_tree.specs.Items.{name_at, number_at, number_of, number_behind, most_of, word_at};

use conf_lines::{Item, Key, Slots, Statement, What};

/// The NAME that stands at a place, counted from 0.
pub(crate) fn name_at<'a>(items: &'a [Item], at: usize) -> Option<&'a str>
    ensures { option_copied result ≡ name_at items.now at }
{
    match items.get(at) {
        Some(
            Item {
                what: What::Name(name),
                ..
            },
        ) => Some(name.as_str()),
        _ => None,
    }
}

/// The number of a word.
fn number_of(what: &What) -> Option<u64>
    ensures { result ≡ number_of what.now }
{
    match what {
        What::Rate(n) => Some(*n),
        What::Whole(n) => Some(*n),
        _ => None,
    }
}

/// The number of a range that stands at a place, counted from 0.
pub(crate) fn number_at(low: u64, high: u64, items: &[Item], at: usize) -> Option<u64>
    ensures value { result ≡ number_at low high items.now at }
    ensures low { IfSome result (λ n. low ≤ n) }
    ensures high { IfSome result (λ n. n ≤ high) }
{
    match items.get(at) {
        Some(item) => match number_of(&item.what) {
            Some(n) => { if low <= n && n <= high { Some(n) } else { None } }
            None => None,
        },
        None => None,
    }
}

/// The number behind an option, of the range that the table of options gives it.
pub(crate) fn number_behind(key: Key, items: &[Item]) -> Option<u64>
    ensures value { result ≡ number_behind key items.now }
    ensures high { IfSome result (λ n. n ≤ most_of (slots_of key)) }
{
    match key.slots() {
        Slots::Rate(low, high) => number_at(low, high, items, 0),
        Slots::Whole(low, high) => number_at(low, high, items, 0),
        _ => None,
    }
}

/// The same, where it is less than 2^32.
pub(crate) fn count_behind(key: Key, items: &[Item]) -> Option<u32>
    requires { most_of (slots_of key) < 2 ^ 32 }
    ensures { result ≡ number_behind key items.now }
{
    match number_behind(key, items) {
        Some(n) => Some(n as u32),
        None => None,
    }
}

/// The word of the item that stands at a place; 0 where none does.
pub(crate) fn word_at(items: &[Item], at: usize) -> u64
    ensures { result ≡ word_at items.now at }
{
    match items.get(at) {
        Some(item) => item.word,
        None => 0,
    }
}

/// The items behind the first `count`.
pub(crate) fn past(items: &[Item], count: usize) -> &[Item]
    ensures { result.now ≡ drop count items.now }
{
    if count < items.len() {
        &items[count..]
    } else {
        &items[items.len()..]
    }
}

/// The items of a statement behind its first `count`.
pub(crate) fn behind(statement: &Statement, count: usize) -> &[Item]
    ensures { result.now ≡ drop count statement.now.items }
{
    past(statement.items.as_slice(), count)
}
