//! The openings that stand for all: the lowest by each slope, and the last.
ghost use Rattle.std.specs.Prelude.{◌≡◌, ◌≤◌, ◌^◌, ◌∷◌, List, Some, true, false};
ghost use Rattle.service_curve.specs.Curve.{IsInRange};
ghost use Rattle.runtime_curve.specs.declared.Opening.{Opening};
ghost use Rattle.runtime_curve.specs.declared.held.Kept.TheVariants.{One};
ghost use Rattle.runtime_curve.specs.Opening.{OpeningFits};
ghost use Rattle.runtime_curve.specs.Held.{IsAboveOne, AreHeldOpenings, IsKept, IsUpTo, Lower, MayFollow, Stand, StandFor, last_held, three};

use crate::Opening;
use service_curve::Curve;

/// Of all openings the one whose line of the first slope is lowest, where the slope falls, the one whose line of the second
/// slope is lowest, and the last.
#[derive(Clone, Copy, Debug, PartialEq, Eq)]
pub struct HeldOpenings {
    pub steep: Opening,
    pub flat: Opening,
    pub last: Opening,
}

/// What is kept of the openings.
#[derive(Clone, Copy, Debug, PartialEq, Eq)]
pub enum Kept {
    /// There is none.
    Nothing,
    /// The last, which stands for all.
    One(Opening),
    /// Those that stand for all.
    Three(HeldOpenings),
}

/// Whether the line of a slope through a new opening, not before another, is nowhere above that one's.
#[inline(always)]
#[tactic(auto, using(crate::proofs::Lowest::new_lower, crate::proofs::Lowest::old_lower))]
fn is_lower(slope: u64, kept: &Opening, new: &Opening) -> bool
    requires slope { slope ≤ 10 ^ 12 }
    requires kept { OpeningFits kept.now }
    requires new { OpeningFits new.now }
    requires order { IsUpTo new.now kept.now }
    ensures lower { result ≡ true → Lower slope new.now kept.now }
    ensures higher { result ≡ false → Lower slope kept.now new.now }
{
    new.count - kept.count <= u128::from(slope) * (new.at - kept.at)
}

/// One opening more, which may follow the last. What is kept changes in its place. Where its line of the second slope is the
/// lowest so is that of the first, and it stands for all.
#[inline(always)]
pub fn add_opening(curve: &Curve, kept: &mut Kept, new: Opening)
    requires in_range { IsInRange curve.now }
    requires new { OpeningFits new }
    requires kept { IsKept curve.now kept.old }
    requires follows { MayFollow (three kept.old) new }
    ensures kept { IsKept curve.now kept.new }
    ensures last { last_held (three kept.new) ≡ Some new }
    ensures opened { (os : List Opening) → Stand curve.now (three kept.old) os → Stand curve.now (three kept.new) (new ∷ os) }
{
    match kept {
        Kept::One(only) => {
            if is_lower(curve.m2, only, &new) {
                *only = new;
                return;
            }
            add_beside(curve, kept, new);
        }
        _ => add_beside(curve, kept, new),
    }
}

/// The same where the new opening does not take the place of the only one. Most openings do, and so this is a call of its own.
#[inline(never)]
fn add_beside(curve: &Curve, kept: &mut Kept, new: Opening)
    requires in_range { IsInRange curve.now }
    requires new { OpeningFits new }
    requires kept { IsKept curve.now kept.old }
    requires follows { MayFollow (three kept.old) new }
    requires above { IsAboveOne curve.now kept.old new }
    ensures kept { IsKept curve.now kept.new }
    ensures last { last_held (three kept.new) ≡ Some new }
    ensures opened { (os : List Opening) → Stand curve.now (three kept.old) os → Stand curve.now (three kept.new) (new ∷ os) }
{
    match kept {
        Kept::Nothing => *kept = Kept::One(new),
        Kept::One(only) => *kept = Kept::Three(second_opening(curve, *only, new)),
        Kept::Three(held) => {
            if is_lower(curve.m2, &held.flat, &new) {
                *kept = Kept::One(new);
                return;
            }
            add_last(curve, held, new);
        }
    }
}

/// A second opening, whose line of the second slope is not lower than that of the first.
#[inline(always)]
fn second_opening(curve: &Curve, first: Opening, new: Opening) -> HeldOpenings
    requires in_range { IsInRange curve.now }
    requires first { OpeningFits first }
    requires new { OpeningFits new }
    requires order { IsUpTo new first }
    requires above { Lower curve.now.m2 first new }
    ensures held { AreHeldOpenings curve.now result }
    ensures last { result.last ≡ new }
    ensures opened { (os : List Opening) → Stand curve.now (three (One first)) os → StandFor curve.now result (new ∷ os) }
{
    let mut held = HeldOpenings {
        steep: first,
        flat: first,
        last: first,
    };
    add_last(curve, &mut held, new);
    held
}

/// One opening more whose line of the second slope is not lower than the lowest. Where the slope does not fall that line alone
/// counts, and both openings are the one whose line it is.
fn add_last(curve: &Curve, held: &mut HeldOpenings, new: Opening)
    requires in_range { IsInRange curve.now }
    requires new { OpeningFits new }
    requires held { AreHeldOpenings curve.now held.old }
    requires last { IsUpTo new held.old.last }
    requires above { Lower curve.now.m2 held.old.flat new }
    ensures held { AreHeldOpenings curve.now held.new }
    ensures last { held.new.last ≡ new }
    ensures opened { (os : List Opening) → StandFor curve.now held.old os → StandFor curve.now held.new (new ∷ os) }
{
    held.last = new;
    if curve.m1 > curve.m2 && is_lower(curve.m1, &held.steep, &new) {
        held.steep = new;
    }
}
