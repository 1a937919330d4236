//! Worked reports, told by the checker from the definitions.
ghost use Rattle.std.specs.Prelude.{◌≡◌, ◌∷◌, [], None, Some};
ghost use Rattle.service_curve.specs.Curve.{curve, straight};
ghost use Rattle.hfsc_model.specs.Choice.{with_chosen};
ghost use Rattle.hfsc_model.specs.Rows.{child, kept, quarters, root, starts, twins, voice_and_data};
ghost use Rattle.share_gaps.specs.Rows.{pair, rows};
ghost use Rattle.share_gaps.specs.Watching.{gap_after};

/// Two leaves with a quarter and three quarters of 8 Mbit/s; three packets of 1,000 bytes wait for the first, and six for the second.
/// They go as one, three, one, three and one, and before each three the first is 8·10^12 / 2,000,000 = 4000000 ahead. Alone it is never
/// ahead, and where nothing was sent Δ is 0.
pub fn gap_of_two_leaves()
    ensures one_pair { rows quarters ≡ pair 1 2 ∷ [] }
    ensures play { gap_after quarters (with_chosen quarters (kept 6 2 0 1000 (kept 3 1 0 1000 [])) (starts 9 0 1000000)) (pair 1 2)
        ≡ record { first = 1; second = 2; gap = Some 4000000; bound = Some 8000002 } }
    ensures alone { gap_after quarters (with_chosen quarters (kept 3 1 0 1000 []) (starts 3 0 1000000)) (pair 1 2)
        ≡ record { first = 1; second = 2; gap = Some 0; bound = Some 8000002 } }
    ensures nothing { gap_after quarters [] (pair 1 2) ≡ record { first = 1; second = 2; gap = Some 0; bound = Some 2 } }
{}

/// Curves that bend have no gap. Two leaves with real-time curves have one, and no bound; nor have two of which one has an upper limit.
pub fn no_bound_with_real_time()
    ensures bent { gap_after voice_and_data (kept 1 1 0 200 (kept 50 2 0 1000 [])) (pair 1 2) ≡ record { first = 1; second = 2; gap = None; bound = None } }
    ensures real { gap_after twins (with_chosen twins (kept 1 1 0 1000 (kept 1 2 0 1000 [])) (starts 2 0 1000000)) (pair 1 2)
        ≡ record { first = 1; second = 2; gap = Some 0; bound = None } }
    ensures limited { gap_after (root ∷ child None (straight 2000000) (Some (straight 8000000)) ∷ child None (straight 6000000) None ∷ []) [] (pair 1 2)
        ≡ record { first = 1; second = 2; gap = Some 0; bound = None } }
{}

/// Three leaves with 1, 2 and 5 Mbit/s of 8, and four, four and ten packets of 1,000 bytes.
pub fn gaps_of_three_leaves()
    ensures pairs { rows (root ∷ child None (straight 1000000) None ∷ child None (straight 2000000) None ∷ child None (straight 5000000) None ∷ [])
        ≡ pair 1 2 ∷ pair 1 3 ∷ pair 2 3 ∷ [] }
    ensures last { let cs = root ∷ child None (straight 1000000) None ∷ child None (straight 2000000) None ∷ child None (straight 5000000) None ∷ [] in
        gap_after cs (with_chosen cs (kept 10 3 0 1000 (kept 4 2 0 1000 (kept 4 1 0 1000 []))) (starts 18 0 1000000)) (pair 2 3)
        ≡ record { first = 2; second = 3; gap = Some 4800000; bound = Some 16000002 } }
    ensures first { let cs = root ∷ child None (straight 1000000) None ∷ child None (straight 2000000) None ∷ child None (straight 5000000) None ∷ [] in
        gap_after cs (with_chosen cs (kept 10 3 0 1000 (kept 4 2 0 1000 (kept 4 1 0 1000 []))) (starts 18 0 1000000)) (pair 1 2)
        ≡ record { first = 1; second = 2; gap = Some 8000000; bound = Some 16000002 } }
{}

/// Two leaves with 2 Mbit/s beside one whose curve rises to 4 Mbit/s after 5 milliseconds, and three packets of 1,000 bytes each: the bend
/// counts for the bound of the two.
pub fn bend_beside_two_leaves()
    ensures { let cs = root ∷ child None (straight 2000000) None ∷ child None (straight 2000000) None ∷ child None (curve 0 5000000 4000000) None ∷ [] in
        gap_after cs (with_chosen cs (kept 3 3 0 1000 (kept 3 2 0 1000 (kept 3 1 0 1000 []))) (starts 9 0 1000000)) (pair 1 2)
        ≡ record { first = 1; second = 2; gap = Some 4000000; bound = Some 14000002 } }
{}
