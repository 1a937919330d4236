// Worked plans: what the definitions say of two of them.
ghost use Rattle.std.specs.Prelude.{◌≡◌, true, false};
ghost use Rattle.play_base.specs.View.{View};
ghost use Rattle.file_plans.specs.Plan.{comes_once, comes_twice};
ghost use Rattle.file_plans.specs.Rows.{ChecksKeepAll, KeepsUncreated, MadeInOrder, made};

/// Worked plans. The arrivals of the plan `made` come twice, all other parts once; each file comes behind those before it; an output that
/// was not created keeps its bytes. A plan that only reads changes no name.
#[tactic(auto, using(crate::proofs::RowLaws::made_in_order, crate::proofs::RowLaws::keeps_uncreated, crate::proofs::RowLaws::checks_keep_all))]
pub fn worked_plans()
    ensures configuration_once { comes_once 1 made ≡ true }
    ensures arrivals_not_once { comes_once 2 made ≡ false }
    ensures arrivals_twice { comes_twice 2 made ≡ true }
    ensures departures_once { comes_once 3 made ≡ true }
    ensures order { (old new : View) → MadeInOrder old new }
    ensures uncreated { (old new : View) → KeepsUncreated old new }
    ensures reads { (old new : View) → ChecksKeepAll old new }
{}
