// A law of what is kept of plays. The function does nothing.
ghost use Rattle.std.specs.Prelude.{◌≡◌, ◌≤◌, ℕ, List, length};
ghost use Rattle.altq_model.specs.Arrivals.{Captured};
ghost use Rattle.altq_model.specs.History.{Decision};
ghost use Rattle.altq_model.specs.Laws.{IsConserved, occurs};
ghost use Rattle.play_loop.specs.KeptFates.{kept_fates};
ghost use Rattle.play_chain.specs.Path.{decisions_of, numbers_of};

/// What is kept of a play has the decisions of its journal; where each arrival has one fate, it has each number once at most.
#[tactic(auto, using(crate::proofs::KeptLemmas::decisions_kept, crate::proofs::KeptLemmas::once_kept))]
pub fn kept_journals_are_journals()
    ensures decisions { (arrived : List Captured) (js : List Decision) → decisions_of (kept_fates arrived js) ≡ js }
    ensures once { (arrived : List Captured) (js : List Decision) → IsConserved (length arrived) js → (n : ℕ)
        → occurs n (numbers_of (kept_fates arrived js)) ≤ 1 }
{}
