// Worked examples, computed by the checker from the definitions.
ghost use Rattle.std.specs.Prelude.{◌≡◌, ◌∷◌, [], pos, negsuc, true, false};
ghost use Rattle.cbq_estimator.specs.Average.{average, cap_of, decayed};
ghost use Rattle.cbq_estimator.specs.Now.{allows_now, estimate_of, start_now};
ghost use Rattle.cbq_estimator.specs.Rows.{after_three, ends, megabit};
ghost use Rattle.cbq_estimator.specs.Starts.{allows, enough, least_start};

/// Worked examples of a class of 1 Mbit/s with a burst of one packet of 1,500 bytes, which takes 12 ms, on a link of 8 Mbit/s: what
/// the definitions make of them.
pub fn worked_examples()
    ensures burst_of_one { cap_of 1000000 1 1500 ≡ 12000000 }
    ensures burst_of_sixteen { cap_of 1000000 16 1500 ≡ 192000000 }
    ensures burst_rounded_up { cap_of 1000000000000 16 1 ≡ 16 }

    // 1/32 is rounded towards zero.
    ensures decays_by_one { decayed (pos 63) ≡ pos 62 }
    ensures decays_by_nothing { decayed (pos 31) ≡ pos 31 }
    ensures rises_by_one { decayed (negsuc 62) ≡ negsuc 61 }
    ensures rises_by_nothing { decayed (negsuc 30) ≡ negsuc 30 }

    // Five packets that wait from 0 on: three are sent at once, each further one when the idle time is enough.
    ensures none_sent { average megabit (ends []) ≡ pos 12000000 }
    ensures first { average megabit (ends (1500000 ∷ [])) ≡ pos 12000000 }
    ensures second { average megabit (ends (3000000 ∷ 1500000 ∷ [])) ≡ pos 1125000 }
    ensures third { average megabit (ends (4500000 ∷ 3000000 ∷ 1500000 ∷ [])) ≡ negsuc 9410155 }
    ensures fourth { average megabit (ends (25616089 ∷ 4500000 ∷ 3000000 ∷ 1500000 ∷ [])) ≡ pos 0 }
    ensures fifth { average megabit (ends (37616089 ∷ 25616089 ∷ 4500000 ∷ 3000000 ∷ 1500000 ∷ [])) ≡ pos 0 }
    ensures borrowed_fourth { average megabit (ends (6000000 ∷ 4500000 ∷ 3000000 ∷ 1500000 ∷ [])) ≡ negsuc 19616088 }
    ensures idle_for_long { average megabit (ends (1000000000 ∷ 4500000 ∷ 3000000 ∷ 1500000 ∷ [])) ≡ pos 12000000 }

    ensures enough_idle_time { enough (negsuc 9410155) ≡ 9116089 }
    ensures none_is_enough { enough (pos 0) ≡ 0 }
    ensures class_is_paced { start_now (estimate_of megabit (ends (4500000 ∷ 3000000 ∷ 1500000 ∷ []))) 8000000 after_three 4500000 1500 ≡ 24116089 }
    ensures paced_by_history { least_start megabit (ends (4500000 ∷ 3000000 ∷ 1500000 ∷ [])) 8000000 after_three 4500000 1500 ≡ 24116089 }
    ensures late_enough { allows megabit (ends (4500000 ∷ 3000000 ∷ 1500000 ∷ [])) 25616089 1500 ≡ true }
    ensures too_early { allows megabit (ends (4500000 ∷ 3000000 ∷ 1500000 ∷ [])) 25616088 1500 ≡ false }
    ensures zero_average_waits { allows megabit (ends (25616089 ∷ 4500000 ∷ 3000000 ∷ 1500000 ∷ [])) 37616088 1500 ≡ false }
    ensures zero_average_in_time { allows megabit (ends (25616089 ∷ 4500000 ∷ 3000000 ∷ 1500000 ∷ [])) 37616089 1500 ≡ true }
    ensures above_zero_at_once { allows_now (estimate_of megabit (ends (3000000 ∷ 1500000 ∷ []))) 3000001 1500 ≡ true }
{}
