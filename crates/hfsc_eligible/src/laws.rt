//! A law of what a value stands for.
ghost use Rattle.std.specs.Prelude.{◌≡◌, ◌∷◌, ℕ, List, Option, true};
ghost use Rattle.service_curve.specs.declared.Curve.{Curve};
ghost use Rattle.hfsc_model.specs.Event.{HfscHistory, Enqueued};
ghost use Rattle.hfsc_model.specs.Leaf.{leaf, is_waiting};
ghost use Rattle.hfsc_eligible.specs.declared.Eligible.{Eligible};
ghost use Rattle.hfsc_eligible.specs.Eligible.{Represents};

/// A packet that is kept in a class in which another waits changes nothing that a value holds: it stands for the longer
/// history as well.
#[tactic(auto, using(crate::proofs::Lists::more_stands))]
pub fn waiting_classes_open_once()
    ensures { (e : Eligible) (curves : List (Option Curve)) (h : HfscHistory) (class at len : ℕ) → Represents e curves h
        → is_waiting (leaf h class).waiting ≡ true → Represents e curves (Enqueued class at len ∷ h) }
{}
