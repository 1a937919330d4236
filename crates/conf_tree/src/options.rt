//! The options of a statement, one after the other.
ghost use Rattle.std.specs.Prelude.{◌≡◌, ◌≤◌, ◌^◌};
ghost use Rattle.conf_tree.specs.Options.{set_by_word, set_options, rate_by_word, rate_by_options, kind_by_word, kind_by_options};

use crate::interface::Kind;
use crate::items::number_behind;
use crate::settings::{ReadContext, Settings, set_option};
use conf_lines::{ConfPlace, Item, Key, What};

/// What a word of a class sets, by the items behind it.
fn set_by_word(
    scope: ReadContext,
    settings: Settings,
    item: &Item,
    items: &[Item],
) -> Result<Settings, ConfPlace>
    ensures { result ≡ set_by_word scope settings item.now.word item.now.what items.now }
{
    match &item.what {
        What::Key(key) => set_option(scope, settings, item.word, *key, items),
        _ => Ok(settings),
    }
}

/// What the options of a class set.
pub(crate) fn set_options(
    scope: ReadContext,
    unset: Settings,
    items: &[Item],
) -> Result<Settings, ConfPlace>
    ensures { result ≡ set_options scope unset items.now }
{
    let mut settings = unset;
    let mut left = items;
    while let [item, rest @ ..] = left {
        match set_by_word(scope, settings, item, rest) {
            Ok(set) => settings = set,
            Err(fault) => return Err(fault),
        }
        left = rest;
    }
    Ok(settings)
}

/// The bandwidth after a word of an interface, by the items behind it.
fn rate_by_word(rate: u64, what: &What, items: &[Item]) -> u64
    ensures { result ≡ rate_by_word rate what.now items.now }
{
    match what {
        What::Key(Key::Bandwidth) => number_behind(Key::Bandwidth, items).unwrap_or(rate),
        _ => rate,
    }
}

/// The bandwidth that the options of an interface set.
pub(crate) fn rate_by_options(unset: u64, items: &[Item]) -> u64
    ensures { result ≡ rate_by_options unset items.now }
{
    let mut rate = unset;
    let mut left = items;
    while let [item, rest @ ..] = left {
        rate = rate_by_word(rate, &item.what, rest);
        left = rest;
    }
    rate
}

/// The kind after a word of an interface.
fn kind_by_word(kind: Option<Kind>, what: &What) -> Option<Kind>
    ensures { result ≡ kind_by_word kind what.now }
{
    match what {
        What::Key(Key::Hfsc) => Some(Kind::Hfsc),
        What::Key(Key::Cbq) => Some(Kind::Cbq),
        _ => kind,
    }
}

/// The kind that the options of an interface set.
pub(crate) fn kind_by_options(items: &[Item]) -> Option<Kind>
    ensures { result ≡ kind_by_options None items.now }
{
    let mut kind = None;
    for item in items {
        kind = kind_by_word(kind, &item.what);
    }
    kind
}
