// The deadline of a curve over openings.

ghost use Rattle.std.specs.Prelude.{◌≡◌, ◌≤◌, ◌<◌, ◌^◌, IfSome, IsTrue, Some};
ghost use Rattle.std.specs.Option.{ForSome};
ghost use Rattle.service_curve.specs.Curve.{IsInRange};
ghost use Rattle.runtime_curve.specs.Opening.{OpeningFits, RisesFromZero};
ghost use Rattle.runtime_curve.specs.Running.{last_of};

use case_bytes::number;
use runtime_curve::{Opening, Running};
use service_curve::Curve;

// The opening of these words.
fn opening_of(at: &str, count: &str) -> Option<Opening>
    ensures { IfSome result OpeningFits }
{
    Some(Opening {
        at: u128::from(number(at)?),
        count: u128::from(number(count)?),
    })
}

// Whether an opening may follow the last one, if there is one.
fn may_follow(last: Option<Opening>, new: Opening) -> bool
    ensures { IsTrue result → ForSome last (λ last. (last.at ≤ new.at) × (last.count ≤ new.count)) }
{
    match last {
        Some(last) => last.at <= new.at && last.count <= new.count,
        None => true,
    }
}

// A curve over openings, which are told in pairs, and the last of them.
fn opened(curve: Curve, openings: &[&str]) -> Option<(Running, Opening)>
    requires in_range { IsInRange curve }
    requires slopes { RisesFromZero curve }
    ensures { IfSome result (λ r. last_of r.0 ≡ Some r.1) }
{
    let mut running = Running::new(curve);
    let mut last = None;
    let mut left = openings;
    while let [at, count, rest @ ..] = left {
        let new = opening_of(at, count)?;
        if !may_follow(last, new) {
            return None;
        }
        running.begin(new.at, new.count);
        last = Some(new);
        left = rest;
    }
    if left.is_empty() {
        Some((running, last?))
    } else {
        None
    }
}

/// The deadline of some units over openings, which are told behind the word `over`; nothing where these words are not understood, or
/// the last opening has as many units.
pub fn deadline_over(curve: Curve, units: u128, words: &[&str]) -> Option<Option<u128>>
    requires in_range { IsInRange curve }
    requires units { units < 2 ^ 64 }
{
    let [over, openings @ ..] = words else {
        return None;
    };
    if *over != "over" || (curve.m1 < curve.m2 && curve.m1 != 0) {
        return None;
    }
    let (running, last) = opened(curve, openings)?;
    if last.count < units {
        Some(running.deadline(units))
    } else {
        None
    }
}
