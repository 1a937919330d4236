//! The gaps of the siblings of HFSC: how far apart their work was, at most, while both were active.
#![tactic(auto)]

ghost use Rattle.std.specs.Prelude.{ℕ, List};
ghost use Rattle.hfsc_model.specs.declared.HfscClass.{HfscClass};
ghost use Rattle.hfsc_model.specs.Event.{HfscHistory};
ghost use Rattle.share_gaps.specs.Greatest.{IsGreatest};
ghost use Rattle.share_gaps.specs.Leads.{most_lead};

mod gap;
mod lead;
mod place;
mod serve;
mod siblings;
mod watch;

pub use gap::Gap;
pub use lead::Lead;
pub use siblings::Siblings;
pub use watch::Watch;

/// The greatest difference is that which is computed event by event.
pub fn leads_are_greatest()
    ensures { (cs : List HfscClass) (c d rate other : ℕ) (g : HfscHistory) → IsGreatest cs g c d rate other (most_lead cs c d rate other g) }
{}
