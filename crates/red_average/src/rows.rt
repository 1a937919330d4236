// Worked examples, computed by the checker from the definitions.
ghost use Rattle.std.specs.Prelude.{◌≡◌, true, false, pos, negsuc};
ghost use Rattle.play_base.specs.Units.{time_of};
ghost use Rattle.red_average.specs.Average.{idle_steps, moved};
ghost use Rattle.red_average.specs.Red.{thresholds};
ghost use Rattle.red_average.specs.Ruling.{dropped, kept, ruled};

use leaf_queue::Reason;

/// Worked examples of the average on a link of 8 Mbit/s, and of what follows from it with the thresholds of 5 and 15 packets: what
/// the definitions make of them. A packet is 2,097,152.
pub fn worked_examples()
    ensures step { time_of 1000 8000000 ≡ 1000000 }
    ensures red_average_moves { moved 1000000 0 0 5 0 ≡ 20480 }
    ensures red_average_moves_on { moved 1000000 0 0 6 20480 ≡ 45016 }
    ensures full_average_stays { moved 1000000 0 0 15 31457280 ≡ 31457280 }
    ensures three_idle_steps { moved 1000000 0 3000000 0 20971520 ≡ 20848880 }
    ensures no_step_before_a_whole_one { moved 1000000 7 1000006 0 20971520 ≡ 20971520 }
    ensures one_step_at_a_whole_one { moved 1000000 7 1000007 0 20971520 ≡ 20930560 }
    ensures arrival_before_the_idle_time { idle_steps 1000000 7 6 ≡ 0 }
    ensures idle_time_of_2_to_the_32_seconds { idle_steps 1000000 0 4294967296000000000 ≡ 4294967296000 }

    // Below, at and above the lower threshold of 10,485,760, with the least word, and with those about the chance of 1 in 209,715,200.
    ensures below_the_lower { ruled thresholds false 10485759 (pos 3) 0 ≡ kept (negsuc 0) 0 }
    ensures at_the_lower { ruled thresholds false 10485760 (negsuc 0) 0 ≡ kept (pos 0) 1 }
    ensures above_the_lower { ruled thresholds false 10485761 (negsuc 0) 20 ≡ dropped Reason.Early 1 }
    ensures above_the_lower_by_a_greater_word { ruled thresholds false 10485761 (negsuc 0) 21 ≡ kept (pos 0) 1 }

    // And the upper one of 31,457,280.
    ensures below_the_upper { ruled thresholds false 31457279 (negsuc 0) 4294967295 ≡ kept (pos 0) 1 }
    ensures at_the_upper { ruled thresholds false 31457280 (pos 3) 4294967295 ≡ dropped Reason.Forced 0 }
    ensures above_the_upper { ruled thresholds false 31457281 (pos 3) 4294967295 ≡ dropped Reason.Forced 0 }
    ensures full_first { ruled thresholds true 31457280 (pos 3) 0 ≡ dropped Reason.Full 0 }
    ensures full_below_the_lower { ruled thresholds true 0 (negsuc 0) 0 ≡ dropped Reason.Full 0 }

    // At ten packets, with the first two random words of seed 42; and where the kept packets have used up the spacing, and no
    // word is drawn.
    ensures red_draws_words { ruled thresholds false 20971520 (negsuc 0) 0xa15c02b7 ≡ kept (pos 0) 1 }
    ensures red_draws_another { ruled thresholds false 20971520 (pos 0) 0x7b47f409 ≡ kept (pos 1) 1 }
    ensures chance_of_one_in_20 { ruled thresholds false 20971520 (negsuc 0) 214748364 ≡ dropped Reason.Early 1 }
    ensures just_over_that_chance { ruled thresholds false 20971520 (negsuc 0) 214748365 ≡ kept (pos 0) 1 }
    ensures certain_at_the_last { ruled thresholds false 20971520 (pos 18) 4294967295 ≡ dropped Reason.Early 1 }
    ensures no_room_is_left { ruled thresholds false 20971520 (pos 19) 4294967295 ≡ dropped Reason.Early 0 }
{}
