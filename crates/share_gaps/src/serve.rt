//! What a sending does to packets that wait and to leads.
ghost use Rattle.std.specs.Prelude.{◌≡◌, ◌<◌, ℕ, List, Option, length, slice_index, EachIndex, if◌then◌else◌};
ghost use Rattle.share_gaps.specs.Serve.{after_gains, both_active, first_served, gain_of, one_less, one_more, rate_at, second_served, update_all};
ghost use Rattle.share_gaps.specs.Within.{AreWithin, ClassesAreWithin};

use crate::lead::{Lead, gain};
use crate::place::Place;
use crate::siblings::Siblings;

/// One packet more waits in each class of a path.
fn count_up(waiting: &mut [u32], path: &[u32])
    requires { EachIndex path.now (λ k. slice_index path.now k < length waiting.old) }
    ensures { waiting.new ≡ update_all one_more path.now waiting.old }
{
    for class in path {
        let count = &mut waiting[*class as usize];
        *count = count.saturating_add(1);
    }
}

/// One packet less.
fn count_down(waiting: &mut [u32], path: &[u32])
    requires { EachIndex path.now (λ k. slice_index path.now k < length waiting.old) }
    ensures { waiting.new ≡ update_all one_less path.now waiting.old }
{
    for class in path {
        let count = &mut waiting[*class as usize];
        *count = count.saturating_sub(1);
    }
}

/// A packet more waits, if the place is that of a leaf.
pub fn keep(waiting: &mut [u32], place: &Place)
    requires { EachIndex place.now.path.items (λ k. slice_index place.now.path.items k < length waiting.old) }
    ensures { waiting.new ≡ (if place.now.leaf then update_all one_more place.now.path.items waiting.old else waiting.old) }
{
    if place.leaf {
        count_up(waiting, &place.path);
    }
}

/// A packet less.
pub fn leave(waiting: &mut [u32], place: &Place)
    requires { EachIndex place.now.path.items (λ k. slice_index place.now.path.items k < length waiting.old) }
    ensures { waiting.new ≡ (if place.now.leaf then update_all one_less place.now.path.items waiting.old else waiting.old) }
{
    if place.leaf {
        count_down(waiting, &place.path);
    }
}

/// A packet waits in both classes, or below them.
fn are_active(waiting: &[u32], siblings: &Siblings) -> bool
    requires { ClassesAreWithin (length waiting.now) siblings.now }
    ensures { result ≡ both_active waiting.now siblings.now }
{
    waiting[siblings.first as usize] > 0 && waiting[siblings.second as usize] > 0
}

/// The leads after a sending under the first of two siblings.
fn first_served(
    lead: Lead,
    siblings: &Siblings,
    waiting: &[u32],
    rates: &[Option<u64>],
    amount: u128,
) -> Lead
    requires within { ClassesAreWithin (length waiting.now) siblings.now }
    requires rates { length rates.now ≡ length waiting.now }
    ensures { result ≡ after_gains lead (both_active waiting.now siblings.now) (gain_of amount (rate_at rates.now siblings.now.second)) 0 }
{
    let both = are_active(waiting, siblings);
    lead.after(both, gain(amount, rates[siblings.second as usize]), 0)
}

/// The leads after a sending under the second.
fn second_served(
    lead: Lead,
    siblings: &Siblings,
    waiting: &[u32],
    rates: &[Option<u64>],
    amount: u128,
) -> Lead
    requires within { ClassesAreWithin (length waiting.now) siblings.now }
    requires rates { length rates.now ≡ length waiting.now }
    ensures { result ≡ after_gains lead (both_active waiting.now siblings.now) 0 (gain_of amount (rate_at rates.now siblings.now.first)) }
{
    let both = are_active(waiting, siblings);
    lead.after(both, 0, gain(amount, rates[siblings.first as usize]))
}

/// A sending of `amount` units under the firsts of these rows; `waiting` is after it.
pub fn serve_firsts(
    leads: &mut [Lead],
    rows: &[u32],
    siblings: &[Siblings],
    waiting: &[u32],
    rates: &[Option<u64>],
    amount: u128,
)
    requires rows { EachIndex rows.now (λ k. slice_index rows.now k < length leads.old) }
    requires leads { length siblings.now ≡ length leads.old }
    requires within { AreWithin (length waiting.now) siblings.now }
    requires rates { length rates.now ≡ length waiting.now }
    ensures { leads.new ≡ update_all (first_served siblings.now waiting.now rates.now amount) rows.now leads.old }
{
    for row in rows {
        let pair = &siblings[*row as usize];
        let lead = leads[*row as usize];
        leads[*row as usize] = first_served(lead, pair, waiting, rates, amount);
    }
}

/// A sending under the seconds of these rows.
pub fn serve_seconds(
    leads: &mut [Lead],
    rows: &[u32],
    siblings: &[Siblings],
    waiting: &[u32],
    rates: &[Option<u64>],
    amount: u128,
)
    requires rows { EachIndex rows.now (λ k. slice_index rows.now k < length leads.old) }
    requires leads { length siblings.now ≡ length leads.old }
    requires within { AreWithin (length waiting.now) siblings.now }
    requires rates { length rates.now ≡ length waiting.now }
    ensures { leads.new ≡ update_all (second_served siblings.now waiting.now rates.now amount) rows.now leads.old }
{
    for row in rows {
        let pair = &siblings[*row as usize];
        let lead = leads[*row as usize];
        leads[*row as usize] = second_served(lead, pair, waiting, rates, amount);
    }
}
