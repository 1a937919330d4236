//! The parts of a conditioner behind its class.
ghost use Rattle.std.specs.Prelude.{◌≡◌, ◌≤◌, slice_get};
ghost use Rattle.conf_tree.specs.Conditioners.{is_single, number_or_least, single_of, two_of, meter_of};
ghost use Rattle.conf_tree.specs.Filters.{says};

use crate::items::number_at;
use conf_lines::{Item, Key, MOST_AF, MOST_BURST, MOST_RATE, What};
use traffic_meter::MeterRule;

/// The number of a range that stands at a place, counted from 0; where none does, the least of the range.
fn number_or_least(low: u64, high: u64, items: &[Item], at: usize) -> u64
    requires { low ≤ high }
    ensures value { result ≡ number_or_least low high items.now at }
    ensures low { low ≤ result }
    ensures high { result ≤ high }
{
    match number_at(low, high, items, at) {
        Some(number) => number,
        None => low,
    }
}

/// Whether the word of a meter of one rate stands first.
fn is_single(items: &[Item]) -> bool
    ensures { result ≡ says is_single (slice_get items.now 0) }
{
    matches!(
        items.first(),
        Some(Item {
            what: What::Key(Key::Srtcm),
            ..
        })
    )
}

fn single_of(items: &[Item]) -> MeterRule
    ensures { result ≡ single_of items.now }
{
    MeterRule::Single {
        cir: number_or_least(1000, MOST_RATE, items, 1),
        cbs: number_or_least(1, MOST_BURST, items, 2) as u32,
        ebs: number_or_least(0, MOST_BURST, items, 3) as u32,
        af: number_or_least(1, MOST_AF, items, 4) as u8,
    }
}

fn two_of(items: &[Item]) -> MeterRule
    ensures { result ≡ two_of items.now }
{
    let pir = number_or_least(1000, MOST_RATE, items, 1);
    MeterRule::Two {
        pir,
        pbs: number_or_least(1, MOST_BURST, items, 2) as u32,
        cir: number_or_least(1000, pir, items, 3),
        cbs: number_or_least(1, MOST_BURST, items, 4) as u32,
        af: number_or_least(1, MOST_AF, items, 5) as u8,
    }
}

/// The meter of a conditioner, by the items behind its class.
pub(crate) fn meter_of(items: &[Item]) -> MeterRule
    ensures { result ≡ meter_of items.now }
{
    if is_single(items) {
        single_of(items)
    } else {
        two_of(items)
    }
}
