// Worked examples, computed by the checker from the definitions.
ghost use Rattle.std.specs.Prelude.{◌≡◌, ◌∷◌, [], map, false, pos, negsuc};
ghost use Rattle.red_average.specs.Ruling.{dropped, kept, ruled};
ghost use Rattle.rio_precedence.specs.Any.{ecn_answer, ecn_verdict};
ghost use Rattle.rio_precedence.specs.Precedence.{seen, thresholds_of};
ghost use Rattle.rio_precedence.specs.Rio.{average_of, count_of};
ghost use Rattle.rio_precedence.specs.Rows.{three_arrivals};

use leaf_queue::{Reason, Verdict};

/// Worked examples of the thresholds of each precedence, a packet being 2,097,152, and of marks: what the definitions make of
/// them. The words are the greatest one, which drops only where the chance is 1.
pub fn worked_examples()
    // Precedence 0: 35 and 45 packets.
    ensures best_below { ruled (thresholds_of 0) false 73400319 (pos 3) 4294967295 ≡ kept (negsuc 0) 0 }
    ensures best_at { ruled (thresholds_of 0) false 73400320 (pos 3) 4294967295 ≡ kept (pos 4) 1 }
    ensures best_above { ruled (thresholds_of 0) false 73400321 (pos 3) 4294967295 ≡ kept (pos 4) 1 }
    ensures best_below_the_upper { ruled (thresholds_of 0) false 94371839 (pos 3) 4294967295 ≡ kept (pos 4) 1 }
    ensures best_at_the_upper { ruled (thresholds_of 0) false 94371840 (pos 3) 4294967295 ≡ dropped Reason.Forced 0 }
    ensures best_above_the_upper { ruled (thresholds_of 0) false 94371841 (pos 3) 4294967295 ≡ dropped Reason.Forced 0 }

    // Precedence 1: 20 and 30.
    ensures middle_below { ruled (thresholds_of 1) false 41943039 (pos 3) 4294967295 ≡ kept (negsuc 0) 0 }
    ensures middle_at { ruled (thresholds_of 1) false 41943040 (pos 3) 4294967295 ≡ kept (pos 4) 1 }
    ensures middle_above { ruled (thresholds_of 1) false 41943041 (pos 3) 4294967295 ≡ kept (pos 4) 1 }
    ensures middle_below_the_upper { ruled (thresholds_of 1) false 62914559 (pos 3) 4294967295 ≡ kept (pos 4) 1 }
    ensures middle_at_the_upper { ruled (thresholds_of 1) false 62914560 (pos 3) 4294967295 ≡ dropped Reason.Forced 0 }
    ensures middle_above_the_upper { ruled (thresholds_of 1) false 62914561 (pos 3) 4294967295 ≡ dropped Reason.Forced 0 }

    // Precedence 2: 5 and 15.
    ensures worst_below { ruled (thresholds_of 2) false 10485759 (pos 3) 4294967295 ≡ kept (negsuc 0) 0 }
    ensures worst_at { ruled (thresholds_of 2) false 10485760 (pos 3) 4294967295 ≡ kept (pos 4) 1 }
    ensures worst_above { ruled (thresholds_of 2) false 10485761 (pos 3) 4294967295 ≡ kept (pos 4) 1 }
    ensures worst_below_the_upper { ruled (thresholds_of 2) false 31457279 (pos 3) 4294967295 ≡ kept (pos 4) 1 }
    ensures worst_at_the_upper { ruled (thresholds_of 2) false 31457280 (pos 3) 4294967295 ≡ dropped Reason.Forced 0 }
    ensures worst_above_the_upper { ruled (thresholds_of 2) false 31457281 (pos 3) 4294967295 ≡ dropped Reason.Forced 0 }

    // Of two packets of precedence 0, three of 1 and four of 2 that wait.
    ensures seen_by_the_best { seen 0 (record { best = 2; middle = 5; all = 9 }) ≡ 2 }
    ensures seen_by_the_middle { seen 1 (record { best = 2; middle = 5; all = 9 }) ≡ 5 }
    ensures seen_by_the_worst { seen 2 (record { best = 2; middle = 5; all = 9 }) ≡ 9 }

    ensures rio_counts_by_precedence { map (λ j. average_of 1000000 j three_arrivals) (0 ∷ 1 ∷ 2 ∷ []) ≡ 0 ∷ 4096 ∷ 12280 ∷ [] }
    ensures counts_below_the_lower { map (λ j. count_of 1000000 50 j three_arrivals) (0 ∷ 1 ∷ 2 ∷ []) ≡ negsuc 0 ∷ negsuc 0 ∷ negsuc 0 ∷ [] }

    ensures early_drop_becomes_a_mark { ecn_answer 1 (record { verdict = Verdict.Drop Reason.Early; took = 1 })
        ≡ record { verdict = Verdict.Mark; took = 1 } }
    ensures not_capable_is_dropped { ecn_verdict 0 (Verdict.Drop Reason.Early) ≡ Verdict.Drop Reason.Early }
    ensures forced_drop_stays { ecn_verdict 1 (Verdict.Drop Reason.Forced) ≡ Verdict.Drop Reason.Forced }
    ensures full_stays { ecn_verdict 1 (Verdict.Drop Reason.Full) ≡ Verdict.Drop Reason.Full }
    ensures kept_stays { ecn_verdict 1 Verdict.Keep ≡ Verdict.Keep }
{}
