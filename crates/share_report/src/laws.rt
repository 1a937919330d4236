// A law of the gaps after a history. The function does nothing.
ghost use Rattle.std.specs.Prelude.{List};
ghost use Rattle.hfsc_model.specs.declared.HfscClass.{HfscClass};
ghost use Rattle.hfsc_model.specs.Event.{HfscHistory};
ghost use Rattle.share_gaps.specs.declared.siblings.Siblings.{Siblings};
ghost use Rattle.share_gaps.specs.Watching.{gap_after};
ghost use Rattle.share_report.specs.Report.{IsGapOf};

/// The gap that is reckoned event by event is the greatest over all stretches in which both siblings stay active.
#[tactic(auto, using(crate::proofs::Gaps::gap_tells))]
pub fn gaps_are_greatest()
    ensures { (cs : List HfscClass) (h : HfscHistory) (s : Siblings) → IsGapOf cs h s (gap_after cs h s) }
{}
