// Worked fates and marks, computed from the definitions: which can occur, and which cannot.
ghost use Rattle.std.specs.Prelude.{ℕ, true, false, Err};
ghost use Rattle.altq_model.specs.declared.Fate.TheVariants.{Dropped};
ghost use Rattle.altq_model.specs.declared.Reason.TheVariants.{Early, Forced, Full};
ghost use Rattle.altq_model.specs.declared.Rule.TheVariants.{Borrow, Own, RealTime, Share};
ghost use Rattle.conf_tree.specs.declared.class.DropRule.TheVariants.{Ecn, Red, Rio, Tail};
ghost use Rattle.conf_tree.specs.declared.interface.Kind.TheVariants.{Cbq, Hfsc};
ghost use Rattle.file_tests.specs.declared.Test.{Test};
ghost use Rattle.play_base.specs.View.{View};
ghost use Rattle.run_outcomes.specs.declared.outcome.Failure.TheVariants.{Refuted};
ghost use Rattle.service_curve.specs.Curve.{straight};
ghost use Rattle.verify_laws.specs.Left.{IsVerification};
ghost use Rattle.verify_laws.specs.Rows.{IsMarkable, IsPossible, of_cbq, plain, sent_by, with_curve, with_rule};

/// Worked fates and marks: what can become of a packet of the class that is implied, of one with another drop rule, with a real-time
/// curve, or in CBQ, and what cannot; and that a verification which ends as refuted is none.
pub fn worked_fates()
    ensures full { IsPossible Hfsc plain (Dropped Full) }
    ensures early_without_red { ¬ IsPossible Hfsc plain (Dropped Early) }
    ensures early_with_red { IsPossible Hfsc (with_rule Red) (Dropped Early) }
    ensures forced_with_rio { IsPossible Hfsc (with_rule Rio) (Dropped Forced) }
    ensures shared { IsPossible Hfsc plain (sent_by Share) }
    ensures real_time { IsPossible Hfsc (with_curve (straight 1000)) (sent_by RealTime) }
    ensures real_time_without_curve { ¬ IsPossible Hfsc plain (sent_by RealTime) }
    ensures real_time_by_zero_curve { ¬ IsPossible Hfsc (with_curve (straight 0)) (sent_by RealTime) }
    ensures own_in_hfsc { ¬ IsPossible Hfsc plain (sent_by Own) }
    ensures own { IsPossible Cbq (of_cbq false) (sent_by Own) }
    ensures borrowed { IsPossible Cbq (of_cbq true) (sent_by Borrow) }
    ensures borrowed_without_right { ¬ IsPossible Cbq (of_cbq false) (sent_by Borrow) }
    ensures shared_in_cbq { ¬ IsPossible Cbq (of_cbq true) (sent_by Share) }
    ensures marked { IsMarkable Ecn 1 }
    ensures marked_incapable { ¬ IsMarkable Ecn 0 }
    ensures marked_by_red { ¬ IsMarkable Red 1 }
    ensures marked_by_tail { ¬ IsMarkable Tail 1 }
    ensures refuted { (v w : View) (row : ℕ) (test : Test) → ¬ IsVerification v w (Err (Refuted row test)) }
{}
