// Worked journals, told by the checker from the definitions.
ghost use Rattle.std.specs.Prelude.{◌∷◌, [], List};
ghost use Rattle.altq_model.specs.Laws.{IsConserved};
ghost use Rattle.journal_laws.specs.Journal.{DropsAtArrival, DropsInOrder, Each, EndsAsLink, IsBusy, IsJournal, SendsAfterDrops, SendsInOrder, StartsAfterArrival, StartsAfterEnd, StartsInOrder};
ghost use Rattle.journal_laws.specs.Rows.{dropped, exchanged, fraction, later, rounded, sent, three_packets, two_packets};

/// Worked journals: which laws they keep, and which they break.
pub fn worked_journals()
    ensures whole { IsJournal 3000000 three_packets fraction }
    ensures last_is_missing { ¬ IsConserved 3 (sent 1 0 8 ∷ sent 2 8 9 ∷ []) }
    ensures second_twice { ¬ IsConserved 2 (sent 1 0 8 ∷ sent 2 8 9 ∷ dropped 2 ∷ []) }
    ensures rounded_once { Each (EndsAsLink 3000000 three_packets) fraction }
    ensures rounded_one_by_one { ¬ Each (EndsAsLink 3000000 three_packets) rounded }
    ensures in_order { Each (SendsInOrder three_packets) fraction }
    ensures first_two_exchanged { ¬ Each (SendsInOrder three_packets) exchanged }
    ensures other_class_may_overtake { Each (SendsInOrder two_packets) (sent 2 10 20 ∷ sent 1 20 30 ∷ []) }
    ensures at_once { IsBusy three_packets fraction }
    ensures a_nanosecond_later { ¬ IsBusy three_packets later }
    ensures drop_in_order { Each DropsInOrder (dropped 1 ∷ dropped 2 ∷ []) }
    ensures drop_twice { ¬ Each DropsInOrder (dropped 2 ∷ dropped 2 ∷ []) }
    ensures start_as_before { Each StartsInOrder (sent 1 7 8 ∷ sent 2 7 8 ∷ []) }
    ensures start_before { ¬ Each StartsInOrder (sent 1 7 8 ∷ sent 2 6 8 ∷ []) }
    ensures drop_after_earlier_start { Each (DropsAtArrival two_packets) (sent 1 9 20 ∷ dropped 2 ∷ []) }
    ensures drop_after_start_at_arrival { ¬ Each (DropsAtArrival two_packets) (sent 1 10 20 ∷ dropped 2 ∷ []) }
    ensures start_at_arrival_of_drop { Each (SendsAfterDrops two_packets) (dropped 2 ∷ sent 1 10 20 ∷ []) }
    ensures start_before_arrival_of_drop { ¬ Each (SendsAfterDrops two_packets) (dropped 2 ∷ sent 1 9 20 ∷ []) }
    ensures start_at_arrival { Each (StartsAfterArrival two_packets) (sent 2 10 20 ∷ []) }
    ensures start_before_arrival { ¬ Each (StartsAfterArrival two_packets) (sent 2 9 20 ∷ []) }
    ensures start_at_end { Each StartsAfterEnd (sent 1 0 8 ∷ sent 2 8 9 ∷ []) }
    ensures start_before_end { ¬ Each StartsAfterEnd (sent 1 0 8 ∷ sent 2 7 9 ∷ []) }
{}
