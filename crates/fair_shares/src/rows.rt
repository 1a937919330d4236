// Worked shares, told by the checker from the definitions.
ghost use Rattle.std.specs.Prelude.{◌≡◌, ◌∷◌, [], ◌*◌, None, false};
ghost use Rattle.service_curve.specs.Curve.{curve, straight};
ghost use Rattle.hfsc_model.specs.Choice.{with_chosen};
ghost use Rattle.hfsc_model.specs.Event.{Sent};
ghost use Rattle.hfsc_model.specs.Rows.{child, kept, quarters, root, starts};
ghost use Rattle.fair_shares.specs.Sharing.{most_step};
ghost use Rattle.fair_shares.specs.Fairness.{AreBothActive, work};

/// Two leaves with a quarter and three quarters of a link of 8 Mbit/s, and packets of 1,000 bytes, 8·10^12 units, for both. The longest
/// moves the virtual time of the first by 8·10^12 / 2,000,000 = 4000000, so Δ is that and the bound 8000002. While both are active the
/// first is sent once before the second: its work by the rate of the second is 4000000 by both rates. With no packet sent Δ is 0. A
/// sibling whose curve rises to 4,000,000 after 5 milliseconds has a step of 2000000 + 5000000.
pub fn gap_of_two_leaves()
    ensures most { most_step quarters (with_chosen quarters (kept 6 2 0 1000 (kept 3 1 0 1000 [])) (starts 9 0 1000000)) 0 ≡ 4000000 }
    ensures both { AreBothActive quarters 1 2 (Sent 1 1000 false 0 ∷ []) (kept 6 2 0 1000 (kept 3 1 0 1000 [])) }
    ensures first { work quarters (Sent 1 1000 false 0 ∷ []) 1 * 6000000 ≡ 4000000 * (2000000 * 6000000) }
    ensures second { work quarters (Sent 1 1000 false 0 ∷ []) 2 ≡ 0 }
    ensures none_sent { most_step quarters (kept 3 1 0 1000 []) 0 ≡ 0 }
    ensures bent { most_step (root ∷ child None (straight 2000000) None ∷ child None (curve 0 5000000 4000000) None ∷ [])
        (Sent 1 1000 false 0 ∷ []) 0 ≡ 7000000 }
{}
