//! Laws of activity and virtual times.
ghost use Rattle.std.specs.Prelude.{◌≡◌, ◌∷◌, ◌&&◌, ◌||◌, ℕ, List, true, false};
ghost use Rattle.std.specs.List.{list_any};
ghost use Rattle.hfsc_model.specs.declared.HfscClass.{HfscClass};
ghost use Rattle.hfsc_model.specs.Event.{HfscHistory, Enqueued};
ghost use Rattle.hfsc_model.specs.Tree.{numbers, is_child, is_leaf, is_under, IsTree};
ghost use Rattle.hfsc_model.specs.Share.{active, activates, activation_time, activations, has_parent, virtual_time};

/// A class that is no leaf is active exactly where a child of it is.
#[tactic(auto, using(crate::proofs::Activity::active_by_children))]
pub fn activity_is_that_of_children()
    ensures { (cs : List HfscClass) (h : HfscHistory) (c : ℕ) → IsTree cs → is_leaf cs c ≡ false
        → active cs h c ≡ list_any (λ e. is_child cs c e && active cs h e) (numbers cs) }
{}

/// A packet that is kept in a leaf makes the leaf and all above it active, and no other class.
#[tactic(auto, using(crate::proofs::Activity::active_kept))]
pub fn packets_make_their_path_active()
    ensures { (cs : List HfscClass) (h : HfscHistory) (l at len c : ℕ)
        → active cs (Enqueued l at len ∷ h) c ≡ (active cs h c || (is_leaf cs l && is_under cs c l)) }
{}

/// When a class becomes active, its virtual time is the v of this activation: none before it gives a later one.
#[tactic(auto, using(crate::proofs::Activity::activated_time))]
pub fn classes_begin_at_their_activation()
    ensures { (cs : List HfscClass) (h : HfscHistory) (l at len c : ℕ) → has_parent cs c ≡ true → activates cs h l c ≡ true
        → virtual_time cs (Enqueued l at len ∷ h) c ≡ activation_time cs h (activations cs h) c }
{}
