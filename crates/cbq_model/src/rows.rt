// Worked examples, computed by the checker from the definitions.
ghost use Rattle.std.specs.Prelude.{◌≡◌, ◌∷◌, ◌++◌, [], true, false, pos, negsuc};
ghost use Rattle.altq_model.specs.declared.Fate.TheVariants.{Sent};
ghost use Rattle.altq_model.specs.declared.Rule.TheVariants.{Own, Borrow};
ghost use Rattle.cbq_model.specs.Rows.{averages_of, journal_of, manual, next_start, packets, paced, quanta, two_and_one, around_a_half, empty_between, nested, thirds};
ghost use Rattle.cbq_model.specs.Choice.{rounds_for};

/// Five packets of a class of 1 Mbit/s with a burst of one, on a link of 8 Mbit/s, that all arrive at 0. Three go at once, and each
/// further one when the class is back at its rate, or at once by a loan.
pub fn class_is_paced_and_borrows()
    ensures paced { journal_of (paced false) 8000000 (packets 5 1 1500) ≡
        (1, Sent 0 1500000 Own) ∷ (2, Sent 1500000 3000000 Own) ∷ (3, Sent 3000000 4500000 Own)
        ∷ (4, Sent 24116089 25616089 Own) ∷ (5, Sent 36116089 37616089 Own) ∷ [] }
    ensures borrows { journal_of (paced true) 8000000 (packets 5 1 1500) ≡
        (1, Sent 0 1500000 Own) ∷ (2, Sent 1500000 3000000 Own) ∷ (3, Sent 3000000 4500000 Own)
        ∷ (4, Sent 4500000 6000000 Borrow) ∷ (5, Sent 6000000 7500000 Borrow) ∷ [] }
    ensures averages { averages_of (paced false) 8000000 1 (packets 5 1 1500) ≡
        pos 12000000 ∷ pos 1125000 ∷ negsuc 9410155 ∷ pos 0 ∷ pos 0 ∷ [] }
    ensures waits { next_start (paced false) 8000000 1 4500000 8 (packets 5 1 1500) ≡ 24116089 }
    ensures never_waits { next_start (paced true) 8000000 1 4500000 8 (packets 5 1 1500) ≡ 4500000 }
{}

/// A packet of a control class goes before two of a default class that came before it.
pub fn cbq_after_the_manual()
    ensures { journal_of manual 10000000 (packets 1 2 1500 ++ packets 1 2 60 ++ packets 1 1 98) ≡
        (3, Sent 0 78400 Own) ∷ (1, Sent 78400 1278400 Own) ∷ (2, Sent 1278400 1326400 Own) ∷ [] }
{}

/// Three packets of each of two classes, the first of which has twice the rate of the second.
pub fn weighted_round_of_two()
    ensures quanta { quanta two_and_one 8000000 ≡ 1500 ∷ 750 ∷ 375 ∷ [] }
    ensures order { journal_of two_and_one 8000000 (packets 3 1 1500 ++ packets 3 2 1500) ≡
        (1, Sent 0 1500000 Own) ∷ (2, Sent 1500000 3000000 Own) ∷ (4, Sent 3000000 4500000 Own)
        ∷ (3, Sent 4500000 6000000 Own) ∷ (5, Sent 6000000 7500000 Own) ∷ (6, Sent 7500000 9000000 Own) ∷ [] }
{}

/// A quantum is a class's part of 1,500 bytes, rounded up: at half of the link's rate it is 750; one bit/s less or more gives
/// 749.9998 or 750.0002, rounded up to 750 and 751. At 1,000 bit/s it is 0.1875 bytes, rounded up to 1. A packet needs as many rounds
/// as make up for the bytes that its class's credit lacks, rounded up.
pub fn quanta_and_rounds_are_rounded_up()
    ensures quanta { quanta around_a_half 8000000 ≡ 1500 ∷ 750 ∷ 750 ∷ 751 ∷ 1 ∷ [] }
    ensures below { rounds_for 0 750 749 ≡ 1 }
    ensures one { rounds_for 0 750 750 ≡ 1 }
    ensures above { rounds_for 0 750 751 ≡ 2 }
    ensures paid { rounds_for 1500 750 1500 ≡ 0 }
    ensures unpaid { rounds_for 1499 750 1500 ≡ 1 }
    ensures more { rounds_for 1501 750 1500 ≡ 0 }
{}

/// Two packets of each of three classes with a quantum of 500. In the first choice all need 3 rounds and gain 1,500 bytes, so that the
/// second and the third class go next. Then all need 3 rounds again, and the class of the cursor goes first, the third.
pub fn cursor_of_the_ring_goes_first()
    ensures { journal_of thirds 8000000 (packets 2 1 1500 ++ packets 2 2 1500 ++ packets 2 3 1500) ≡
        (1, Sent 0 1500000 Own) ∷ (3, Sent 1500000 3000000 Own) ∷ (5, Sent 3000000 4500000 Own)
        ∷ (6, Sent 4500000 6000000 Own) ∷ (2, Sent 6000000 7500000 Own) ∷ (4, Sent 7500000 9000000 Own) ∷ [] }
{}

/// With a quantum of 500 the second class's packet of 100 bytes goes first, after one round. The class is empty then, so it loses the
/// 400 bytes of credit that are left. Its next packet, of 400 bytes, comes 200 microseconds later and needs one round. So does the
/// first class's packet of 100 bytes, which waits behind one of 1,500. The class at the cursor goes first.
pub fn emptied_class_keeps_no_credit()
    ensures { journal_of thirds 8000000 empty_between ≡
        (3, Sent 0 100000 Own) ∷ (1, Sent 100000 1600000 Own) ∷ (2, Sent 1600000 1700000 Own) ∷ (4, Sent 1700000 2100000 Own) ∷ [] }
{}

/// Three packets of the lower class leave both classes above their rates: the averages of the lower one are 24000000, 750000 and
/// -21773437, those of the upper one are those of `class_is_paced_and_borrows`. The lower class itself would wait till 48093018. The
/// upper one lends when it is back at its rate, and at once where it borrows from the root.
pub fn class_above_its_rate_does_not_lend()
    ensures averages { averages_of (nested false) 8000000 2 (packets 3 2 1500) ≡ pos 24000000 ∷ pos 750000 ∷ negsuc 21773436 ∷ [] }
    ensures waits { next_start (nested false) 8000000 2 4500000 8 (packets 5 2 1500) ≡ 24116089 }
    ensures borrows { journal_of (nested false) 8000000 (packets 4 2 1500) ≡
        (1, Sent 0 1500000 Own) ∷ (2, Sent 1500000 3000000 Own) ∷ (3, Sent 3000000 4500000 Own) ∷ (4, Sent 24116089 25616089 Borrow) ∷ [] }
    ensures never_waits { next_start (nested true) 8000000 2 4500000 8 (packets 5 2 1500) ≡ 4500000 }
{}
