//! The place of a class in a list in the order of the keys.
ghost use Rattle.std.specs.Prelude.{◌≡◌, ◌+◌, ◌-◌, ◌<◌, length, slice_index, true, if◌then◌else◌};
ghost use Rattle.std.specs.List.{remove};
ghost use Rattle.hfsc_model.specs.RealTime.{goes_first, is_earlier};
ghost use Rattle.ranking.specs.Keys.{all_keys};
ghost use Rattle.ranking.specs.Order.{is_before, is_ranked, key_of};
ghost use Rattle.ranking.specs.Search.{IsFound};

use crate::keys::Keys;

/// How many classes are looked at by their numbers.
const FEW: usize = 8;

/// Whether the first moment is before the second, where `None` means never.
#[inline(always)]
fn is_earlier(a: Option<u128>, b: Option<u128>) -> bool
    ensures { result ≡ is_earlier a b }
{
    match a {
        None => false,
        Some(x) => match b {
            None => true,
            Some(y) => x < y,
        },
    }
}

/// Whether a class with the first key goes before one with the second. Both keys are compared both ways, without a branch between.
#[inline(always)]
fn goes_first(a: Option<u128>, one: u32, b: Option<u128>, other: u32) -> bool
    ensures { result ≡ goes_first a one b other }
{
    let earlier = is_earlier(a, b);
    let later = is_earlier(b, a);
    earlier | (!later & (one < other))
}

/// The first of two places where a test holds, else the second.
#[inline(always)]
fn chosen(test: bool, one: usize, other: usize) -> usize
    ensures { result ≡ (if test then one else other) }
{
    if test { one } else { other }
}

/// Whether a class goes before another.
pub fn goes_before(keys: &Keys, class: u32, other: u32) -> bool
    ensures { result ≡ is_before (all_keys keys.now) class other }
{
    goes_first(keys.get(class), class, keys.get(other), other)
}

/// How many classes of the list go before a class with its key.
#[inline(always)]
pub fn place_of(order: &[u32], keys: &Keys, class: u32, key: Option<u128>) -> usize
    requires ranked { is_ranked (all_keys keys.now) order.now ≡ true }
    requires key { key ≡ key_of (all_keys keys.now) class }
    ensures { IsFound (all_keys keys.now) order.now class result result }
{
    let mut low = 0;
    let mut high = order.len();
    while low < high {
        let middle = low + (high - low) / 2;
        let other = order[middle];
        let goes = goes_first(keys.get(other), other, key, class);
        low = chosen(goes, middle + 1, low);
        high = chosen(goes, high, middle);
    }
    low
}

/// The same of a class that is in the list. The numbers of the first few classes are looked at first, since that costs less than keys,
/// and lists are mostly short.
#[inline(always)]
pub fn place_in(order: &[u32], keys: &Keys, class: u32) -> usize
    requires { is_ranked (all_keys keys.now) order.now ≡ true }
    ensures { IsFound (all_keys keys.now) order.now class result result }
{
    for place in 0..order.len().min(FEW) {
        if order[place] == class {
            return place;
        }
    }
    place_past(order, keys, class)
}

/// The same by its key, where it stands behind the first few.
#[inline(never)]
fn place_past(order: &[u32], keys: &Keys, class: u32) -> usize
    requires { is_ranked (all_keys keys.now) order.now ≡ true }
    ensures { IsFound (all_keys keys.now) order.now class result result }
{
    place_of(order, keys, class, keys.get(class))
}

/// The class at a place of a list without the one at `from`.
fn other_at(order: &[u32], from: usize, place: usize) -> u32
    requires from { from < length order.now }
    requires place { place + 1 < length order.now }
    ensures { result ≡ slice_index (remove order.now from) place }
{
    if place < from {
        order[place]
    } else {
        order[place + 1]
    }
}

/// How many of the other classes go before a class that stands at `from`, with its new key. Where it goes behind the one before it,
/// the one behind it is tried next: most keys grow a little.
pub fn place_beside(order: &[u32], keys: &Keys, from: usize, class: u32, key: Option<u128>) -> usize
    requires from { from < length order.now }
    requires ranked { is_ranked (all_keys keys.now) (remove order.now from) ≡ true }
    requires key { key ≡ key_of (all_keys keys.now) class }
    ensures { IsFound (all_keys keys.now) (remove order.now from) class result result }
{
    let mut least = lowest_beside(order, keys, from, class, key);
    let mut most = order.len() - 1;
    let mut middle = least;
    while least < most {
        let other = other_at(order, from, middle);
        let goes = goes_first(keys.get(other), other, key, class);
        least = chosen(goes, middle + 1, least);
        most = chosen(goes, most, middle);
        middle = least + (most - least) / 2;
    }
    least
}

/// How many of the other classes go before it at least: those before it, where it goes behind the one before it.
fn lowest_beside(order: &[u32], keys: &Keys, from: usize, class: u32, key: Option<u128>) -> usize
    requires from { from < length order.now }
    requires ranked { is_ranked (all_keys keys.now) (remove order.now from) ≡ true }
    requires key { key ≡ key_of (all_keys keys.now) class }
    ensures { IsFound (all_keys keys.now) (remove order.now from) class result (length order.now - 1) }
{
    if from == 0 {
        return 0;
    }
    let other = order[from - 1];
    if goes_first(keys.get(other), other, key, class) {
        from
    } else {
        0
    }
}
