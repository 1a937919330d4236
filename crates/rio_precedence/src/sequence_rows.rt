// Worked sequences, computed by the checker from the definitions.
ghost use Rattle.std.specs.Prelude.{◌≡◌, ◌-◌, ◌*◌, ◌^◌, ◌∷◌, [], true, false, length};
ghost use Rattle.std.specs.List.{list_any};
ghost use Rattle.red_average.specs.Red.{red_says, thresholds};
ghost use Rattle.red_average.specs.Red as red;
ghost use Rattle.rio_precedence.specs.Any.{marking};
ghost use Rattle.rio_precedence.specs.Precedence.{thresholds_of};
ghost use Rattle.rio_precedence.specs.Exactly.{exact_idled, exact_moved, exact_of, exact_zero};
ghost use Rattle.rio_precedence.specs.Sequence.{any_precedence, enough, is_dropped, is_told, only, verdicts};
ghost use Rattle.rio_precedence.specs.SequenceRows.{at_ten_packets, five_and_six, in_turn, met};

use leaf_queue::{Reason, Verdict};

/// Worked sequences: exact averages, of packets times 2^21, as fractions of powers of 512; how many packets are enough; and which
/// are looked at.
pub fn worked_sequences()
    ensures five_and_six_wait { exact_of 1000000 five_and_six ≡ record { top = 45016 * 512 ^ 2; steps = 2 } }
    ensures three_idle_steps { exact_moved 1000000 0 3000000 0 at_ten_packets ≡ record { top = 511 ^ 3 * 20971520; steps = 3 } }
    ensures not_before_the_idle_time { exact_moved 1000000 7 6 0 at_ten_packets ≡ at_ten_packets }

    // The spacing is 100 packets: at 10 packets, 5 over the lower threshold, that of 20 packets and one more.
    ensures enough_at_ten_packets { enough thresholds (5 * 2 ^ 21) ≡ 21 }
    ensures enough_just_below { enough thresholds (5 * 2 ^ 21 - 1) ≡ 22 }
    ensures enough_just_below_the_upper { enough thresholds (10 * 2 ^ 21 - 1) ≡ 12 }
    ensures enough_by_a_unit { enough thresholds 1 ≡ 209715201 }
    ensures enough_in_the_best { enough (thresholds_of 0) (5 * 2 ^ 21) ≡ 21 }

    // Five wait at a limit of five.
    ensures full_is_dropped { list_any is_dropped (verdicts any_precedence (red_says 1000000 5) (met 5 1 ∷ []) []) ≡ true }
    ensures one_below_is_not { list_any is_dropped (verdicts any_precedence (red_says 1000000 6) (met 5 1 ∷ []) []) ≡ false }
    ensures full_is_not_marked { verdicts any_precedence (marking (red_says 1000000 5)) (met 5 1 ∷ []) []
        ≡ Verdict.Drop Reason.Full ∷ [] }
    ensures each_counts { length (verdicts any_precedence (red_says 1000000 50) in_turn []) ≡ 3 }
    ensures one_precedence_counts { length (verdicts (only 1) (red_says 1000000 50) in_turn []) ≡ 2 }
    ensures none_of_another { length (verdicts (only 2) (red_says 1000000 50) in_turn []) ≡ 0 }
{}
