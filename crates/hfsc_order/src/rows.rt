// Worked orders, told by the checker from the definitions.
ghost use Rattle.std.specs.Prelude.{◌≡◌, ◌∷◌, [], false, None, Some};
ghost use Rattle.hfsc_model.specs.Event.{Enqueued, Sent};
ghost use Rattle.hfsc_model.specs.Limit.{share_pick};
ghost use Rattle.hfsc_model.specs.Rows.{nested, quarters};
ghost use Rattle.hfsc_model.specs.Share.{virtual_time};
ghost use Rattle.hfsc_order.specs.Order.{IsLeastChild};

/// Two leaves with a quarter and three quarters of a link of 8 Mbit/s, and a packet of 1,000 bytes in each. Both begin with a virtual
/// time of 0, and the first goes first; then it has 4,000,000, and the second goes.
pub fn worked_orders()
    ensures first_in_the_file { share_pick quarters (Enqueued 2 0 1000 ∷ Enqueued 1 0 1000 ∷ []) 0 ≡ Some 1 }
    ensures not_the_second { ¬ IsLeastChild quarters (Enqueued 2 0 1000 ∷ Enqueued 1 0 1000 ∷ []) 0 0 2 }
    ensures first_has_more { virtual_time quarters (Sent 1 1000 false 0 ∷ Enqueued 2 0 1000 ∷ Enqueued 1 0 1000 ∷ Enqueued 1 0 1000 ∷ []) 1 ≡ 4000000 }
    ensures then_the_second { share_pick quarters (Sent 1 1000 false 0 ∷ Enqueued 2 0 1000 ∷ Enqueued 1 0 1000 ∷ Enqueued 1 0 1000 ∷ []) 1000000 ≡ Some 2 }
    ensures not_the_first { ¬ IsLeastChild quarters (Sent 1 1000 false 0 ∷ Enqueued 2 0 1000 ∷ Enqueued 1 0 1000 ∷ Enqueued 1 0 1000 ∷ []) 1000000 0 1 }
    ensures none_waits { share_pick quarters [] 0 ≡ None }
    ensures through_a_class { share_pick (nested None) (Enqueued 2 0 1000 ∷ []) 0 ≡ Some 2 }
{}
