//! The lists of the heads.
ghost use Rattle.std.specs.Prelude.{◌≡◌, true};
ghost use Rattle.ranking.specs.Order.{is_in};
ghost use Rattle.ranking.specs.Ranking.{HasPlace, IsReplaced, order_of};
ghost use Rattle.hfsc_eligible.specs.Slot.{slot_deadline, slot_has_head, slot_soonest};
ghost use Rattle.hfsc_model.specs.RealTime.{has_come};

use crate::slot::Slot;
use ranking::Ranking;

/// A moment is there and not later than `now`.
pub fn has_come(moment: Option<u128>, now: u128) -> bool
    ensures { result ≡ has_come moment now }
{
    match moment {
        None => false,
        Some(moment) => moment <= now,
    }
}

/// Puts a class anew into the lists by deadline and by moment, or takes it out of them; `was` says whether it was there. A class
/// without a curve is in neither, and costs nothing.
#[inline(always)]
pub fn rank(deadlines: &mut Ranking, moments: &mut Ranking, class: u32, was: bool, slot: &Slot)
    requires deadline_place { HasPlace deadlines.old class }
    requires moment_place { HasPlace moments.old class }
    requires deadline_was { is_in class (order_of deadlines.old) ≡ was }
    requires moment_was { is_in class (order_of moments.old) ≡ was }
    ensures deadlines { IsReplaced class (slot_has_head slot.now) (slot_deadline slot.now) deadlines.old deadlines.new }
    ensures moments { IsReplaced class (slot_has_head slot.now) (slot_soonest slot.now) moments.old moments.new }
{
    if slot.has_head() {
        rank_anew(deadlines, moments, class, was, slot);
    } else if was {
        deadlines.replace(class, true, false, None);
        moments.replace(class, true, false, None);
    }
}

/// The same for a class with a curve and a head.
fn rank_anew(deadlines: &mut Ranking, moments: &mut Ranking, class: u32, was: bool, slot: &Slot)
    requires deadline_place { HasPlace deadlines.old class }
    requires moment_place { HasPlace moments.old class }
    requires deadline_was { is_in class (order_of deadlines.old) ≡ was }
    requires moment_was { is_in class (order_of moments.old) ≡ was }
    ensures deadlines { IsReplaced class true (slot_deadline slot.now) deadlines.old deadlines.new }
    ensures moments { IsReplaced class true (slot_soonest slot.now) moments.old moments.new }
{
    deadlines.replace(class, was, true, slot.deadline());
    moments.replace(class, was, true, slot.soonest());
}
