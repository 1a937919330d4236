// Worked trees, told by the checker from the definitions.
ghost use Rattle.std.specs.Prelude.{◌≡◌, ◌∷◌, [], None, Some, false};
ghost use Rattle.service_curve.specs.Curve.{straight};
ghost use Rattle.hfsc_model.specs.Choice.{by_share, choice};
ghost use Rattle.hfsc_model.specs.Event.{Enqueued, Sent};
ghost use Rattle.hfsc_model.specs.Rows.{child, limited, one_leaf, quarters, root};
ghost use Rattle.hfsc_order.specs.Queue.{IsOneQueue};

/// The classes of an interface without class statements, a root and a leaf with the whole bandwidth, are one queue, and so is a root
/// alone, and a leaf whose real-time curve is 0. A leaf with another curve, or with a limit, is none, and neither are two leaves. Of two
/// packets of 1,000 bytes in the one leaf the first goes by share when it comes, and the second as soon as the link is free.
pub fn worked_trees()
    ensures implied { IsOneQueue (root ∷ child None (straight 8000000) None ∷ []) 1 }
    ensures alone { IsOneQueue (root ∷ []) 0 }
    ensures zero { IsOneQueue (one_leaf (straight 0)) 1 }
    ensures not_with_real_time { ¬ IsOneQueue (one_leaf (straight 1)) 1 }
    ensures not_with_a_limit { ¬ IsOneQueue limited 1 }
    ensures not_two { ¬ IsOneQueue quarters 1 }
    ensures first { choice (one_leaf (straight 0)) (Enqueued 1 0 1000 ∷ Enqueued 1 0 1000 ∷ []) 0 ≡ Some (by_share 1) }
    ensures second { choice (one_leaf (straight 0)) (Sent 1 1000 false 0 ∷ Enqueued 1 0 1000 ∷ Enqueued 1 0 1000 ∷ []) 1000000 ≡ Some (by_share 1) }
    ensures none_waits { choice (one_leaf (straight 0)) (Sent 1 1000 false 0 ∷ Enqueued 1 0 1000 ∷ []) 1000000 ≡ None }
{}
