//! Laws of the choice by real time.
ghost use Rattle.std.specs.Prelude.{◌≡◌, ℕ, List, Option, MatchOption};
ghost use Rattle.service_curve.specs.declared.Curve.{Curve};
ghost use Rattle.hfsc_model.specs.Event.{HfscHistory};
ghost use Rattle.hfsc_model.specs.RealTime.{real_pick, IsRealPick, NoneIsEligible};

/// The computed choice by real time is the pick, and there is one.
#[tactic(auto, using(crate::proofs::Picking::computed, crate::proofs::Picking::one_pick))]
pub fn computed_picks_are_picks()
    ensures pick { (curves : List (Option Curve)) (h : HfscHistory) (now : ℕ)
        → MatchOption (real_pick curves h now) (NoneIsEligible curves h now) (IsRealPick curves h now) }
    ensures one { (curves : List (Option Curve)) (h : HfscHistory) (now c d : ℕ) → IsRealPick curves h now c
        → IsRealPick curves h now d → c ≡ d }
{}
