//! What the options of a class set.
ghost use Rattle.std.specs.Prelude.{◌≡◌, ◌≤◌, IfSome, option_map, unwrap_or};
ghost use Rattle.service_curve.specs.Curve.{straight};
ghost use Rattle.conf_tree.specs.Items.{number_behind};
ghost use Rattle.conf_tree.specs.Settings.{unset, of_kind, rate_of_kind, class_of, curve_behind, percent, set_percent, set_default, set_queue, set_cbq, set_option, curve_in_slots};
ghost use Rattle.std.specs.Option.{option_or};

use crate::class::{Class, DropRule};
use crate::interface::Kind;
use crate::items::{count_behind, number_at, number_behind, word_at};
use crate::places::fault_at;
use conf_lines::{ConfKind, ConfPlace, Item, Key, MOST_BEND, MOST_RATE, Slots, Text};
use service_curve::Curve;

/// What the options of a class have set so far; `None` and false where they have not.
#[derive(Clone, Copy)]
pub(crate) struct Settings {
    pub(crate) real: Option<Curve>,
    /// Whether the real-time curve was set last by `rt` or `grate`.
    pub(crate) fixed: bool,
    pub(crate) share: Option<Curve>,
    pub(crate) upper: Option<Curve>,
    pub(crate) rate: Option<u64>,
    pub(crate) priority: u8,
    pub(crate) borrow: bool,
    pub(crate) control: bool,
    pub(crate) maxburst: u32,
    pub(crate) packetsize: u32,
    pub(crate) limit: u32,
    pub(crate) drop: DropRule,
    pub(crate) clear: bool,
    pub(crate) is_default: bool,
}

/// What the options of a class are read under: its line, the bandwidth of its interface, and whether that has a default.
#[derive(Clone, Copy)]
pub(crate) struct ReadContext {
    pub(crate) line: u64,
    pub(crate) rate: u64,
    pub(crate) chosen: bool,
}

/// Where a class stands below its root.
#[derive(Clone, Copy)]
pub(crate) struct TreePosition {
    pub(crate) parent: Option<u32>,
    pub(crate) level: u8,
}

/// A class but for its name: where it stands, its settings, and its rate, which is 0 in HFSC.
#[derive(Clone, Copy)]
pub(crate) struct ClassDraft {
    pub(crate) spot: TreePosition,
    pub(crate) settings: Settings,
    pub(crate) rate: u64,
}

/// Before the first option.
pub(crate) fn unset() -> Settings
    ensures { result ≡ unset }
{
    Settings {
        real: None,
        fixed: false,
        share: None,
        upper: None,
        rate: None,
        priority: 0,
        borrow: false,
        control: false,
        maxburst: 16,
        packetsize: 1500,
        limit: 50,
        drop: DropRule::Tail,
        clear: false,
        is_default: false,
    }
}

/// Without what the options of the other kind set.
pub(crate) fn of_kind(kind: Kind, settings: Settings) -> Settings
    ensures { result ≡ of_kind kind settings }
{
    match kind {
        Kind::Hfsc => Settings {
            priority: 0,
            borrow: false,
            control: false,
            maxburst: 0,
            packetsize: 0,
            ..settings
        },
        Kind::Cbq => Settings {
            real: None,
            fixed: false,
            share: None,
            upper: None,
            ..settings
        },
    }
}

/// The rate of a class, which is 0 in HFSC.
pub(crate) fn rate_of_kind(kind: Kind, rate: u64) -> u64
    ensures { result ≡ rate_of_kind kind rate }
{
    match kind {
        Kind::Hfsc => 0,
        Kind::Cbq => rate,
    }
}

/// The class of a name, a parent, a rate and settings, without a conditioner.
pub(crate) fn class_of(name: Text, parent: Option<u32>, rate: u64, settings: Settings) -> Class
    ensures { result ≡ class_of name parent rate settings }
{
    Class {
        name,
        parent,
        real: settings.real,
        share: settings.share,
        upper: settings.upper,
        rate,
        priority: settings.priority,
        borrow: settings.borrow,
        control: settings.control,
        maxburst: settings.maxburst,
        packetsize: settings.packetsize,
        limit: settings.limit,
        drop: settings.drop,
        clear: settings.clear,
        is_default: settings.is_default,
        meter: None,
    }
}

/// The curve of the three numbers at the front, whose first slope is at least `low` and whose second at least `least`.
fn curve_in(low: u64, least: u64, items: &[Item]) -> Option<Curve>
    ensures { result ≡ curve_in_slots (Slots.Curve low least) items.now }
{
    let Some(m1) = number_at(low, MOST_RATE, items, 0) else {
        return None;
    };
    let Some(d) = number_at(0, MOST_BEND, items, 1) else {
        return None;
    };
    let Some(m2) = number_at(least, MOST_RATE, items, 2) else {
        return None;
    };
    if d > 0 && m1 > 0 && m1 < m2 {
        return None;
    }
    Some(Curve::make(m1, d * 1_000_000, m2))
}

/// The curve behind an option.
fn curve_behind(key: Key, items: &[Item]) -> Option<Curve>
    ensures { result ≡ curve_behind key items.now }
{
    match key.slots() {
        Slots::Curve(low, least) => curve_in(low, least, items),
        _ => None,
    }
}

/// A part of a rate in percent, rounded down.
fn percent(rate: u64, n: u64) -> u64
    requires { n ≤ 100 }
    ensures { result ≡ percent rate n }
{
    (n as u128 * rate as u128 / 100) as u64
}

/// The line of `pshare`.
fn part_of(rate: u64, items: &[Item]) -> Option<Curve>
    ensures { result ≡ option_map (λ n. straight (percent rate n)) (number_behind Key.Pshare items.now) }
{
    match number_behind(Key::Pshare, items) {
        Some(n) => Some(Curve::make(0, 0, percent(rate, n))),
        None => None,
    }
}

/// The line of `grate`.
fn line_in(items: &[Item]) -> Option<Curve>
    ensures { result ≡ option_map (λ n. straight n) (number_behind Key.Grate items.now) }
{
    match number_behind(Key::Grate, items) {
        Some(n) => Some(Curve::make(0, 0, n)),
        None => None,
    }
}

/// The number of `priority`.
fn priority_or(unset: u8, items: &[Item]) -> u8
    ensures { result ≡ unwrap_or (number_behind Key.Priority items.now) unset }
{
    match number_behind(Key::Priority, items) {
        Some(n) => n as u8,
        None => unset,
    }
}

/// `pbandwidth`: the rate is tested at its number.
fn set_percent(
    scope: ReadContext,
    settings: Settings,
    word: u64,
    n: Option<u64>,
) -> Result<Settings, ConfPlace>
    requires { IfSome n (λ n. n ≤ 100) }
    ensures { result ≡ set_percent scope settings word n }
{
    let Some(n) = n else {
        return Ok(settings);
    };
    let rate = percent(scope.rate, n);
    if rate >= 1000 && rate <= MOST_RATE {
        Ok(Settings {
            rate: Some(rate),
            ..settings
        })
    } else {
        Err(fault_at(scope.line, word, ConfKind::RateRange))
    }
}

/// `default`: one on each interface.
fn set_default(scope: ReadContext, settings: Settings, word: u64) -> Result<Settings, ConfPlace>
    ensures { result ≡ set_default scope settings word }
{
    if scope.chosen || settings.is_default {
        Err(fault_at(scope.line, word, ConfKind::TwoDefaults))
    } else {
        Ok(Settings {
            is_default: true,
            ..settings
        })
    }
}

fn with_real(settings: Settings, real: Option<Curve>, fixed: bool) -> Settings
    ensures { result ≡ record settings { real = option_or real settings.real; fixed = fixed } }
{
    Settings {
        real: real.or(settings.real),
        fixed,
        ..settings
    }
}

fn with_share(settings: Settings, share: Option<Curve>) -> Settings
    ensures { result ≡ record settings { share = option_or share settings.share } }
{
    Settings {
        share: share.or(settings.share),
        ..settings
    }
}

fn with_upper(settings: Settings, upper: Option<Curve>) -> Settings
    ensures { result ≡ record settings { upper = option_or upper settings.upper } }
{
    Settings {
        upper: upper.or(settings.upper),
        ..settings
    }
}

/// What an option of both kinds of classes sets, and `default` tests.
fn set_queue(
    scope: ReadContext,
    s: Settings,
    word: u64,
    key: Key,
    items: &[Item],
) -> Result<Settings, ConfPlace>
    ensures { result ≡ set_queue scope s word key items.now }
{
    let mut s = s;
    match key {
        Key::Qlimit => {
            s.limit = count_behind(Key::Qlimit, items).unwrap_or(s.limit);
            Ok(s)
        }
        Key::Red => {
            s.drop = DropRule::Red;
            Ok(s)
        }
        Key::Ecn => {
            s.drop = DropRule::Ecn;
            Ok(s)
        }
        Key::Rio => {
            s.drop = DropRule::Rio;
            Ok(s)
        }
        Key::Cleardscp => {
            s.clear = true;
            Ok(s)
        }
        Key::Default => set_default(scope, s, word),
        _ => Ok(s),
    }
}

/// What an option of CBQ sets, or one of both kinds of classes.
fn set_cbq(
    scope: ReadContext,
    s: Settings,
    word: u64,
    key: Key,
    items: &[Item],
) -> Result<Settings, ConfPlace>
    ensures { result ≡ set_cbq scope s word key items.now }
{
    let mut s = s;
    match key {
        Key::Priority => {
            s.priority = priority_or(s.priority, items);
            Ok(s)
        }
        Key::Pbandwidth => {
            let n = number_behind(Key::Pbandwidth, items);
            set_percent(scope, s, word_at(items, 0), n)
        }
        Key::Exactbandwidth => {
            s.rate = number_behind(Key::Exactbandwidth, items).or(s.rate);
            Ok(s)
        }
        Key::Borrow => Ok(Settings { borrow: true, ..s }),
        Key::Control => Ok(Settings { control: true, ..s }),
        Key::Maxburst => {
            s.maxburst = count_behind(Key::Maxburst, items).unwrap_or(s.maxburst);
            Ok(s)
        }
        Key::Packetsize => {
            s.packetsize = count_behind(Key::Packetsize, items).unwrap_or(s.packetsize);
            Ok(s)
        }
        _ => set_queue(scope, s, word, key, items),
    }
}

/// What an option sets, whose word is at a word of the line, by the items behind it.
pub(crate) fn set_option(
    scope: ReadContext,
    s: Settings,
    word: u64,
    key: Key,
    items: &[Item],
) -> Result<Settings, ConfPlace>
    ensures { result ≡ set_option scope s word key items.now }
{
    match key {
        Key::Sc => {
            let curve = curve_behind(Key::Sc, items);
            Ok(with_share(with_real(s, curve, false), curve))
        }
        Key::Rt => Ok(with_real(s, curve_behind(Key::Rt, items), true)),
        Key::Ls => Ok(with_share(s, curve_behind(Key::Ls, items))),
        Key::Ul => Ok(with_upper(s, curve_behind(Key::Ul, items))),
        Key::Pshare => Ok(with_share(s, part_of(scope.rate, items))),
        Key::Grate => Ok(with_real(s, line_in(items), true)),
        _ => set_cbq(scope, s, word, key, items),
    }
}
