//! HFSC where no class has an upper limit: its link never idles while a packet waits. The source is Stoica, Zhang and Ng, "A
//! Hierarchical Fair Service Curve Algorithm for Link-Sharing, Real-Time and Priority Services", SIGCOMM 1997, which has no limits.

ghost use Rattle.std.specs.Prelude.{◌≡◌, ◌≤◌, ◌<◌, ◌^◌, ℕ, List};
ghost use Rattle.altq_model.specs.History.{LabelledEvent, unlabelled};
ghost use Rattle.altq_model.specs.Policies.{Answering};
ghost use Rattle.discipline.specs.Moments.{IsChoice};
ghost use Rattle.hfsc_model.specs.declared.HfscClass.{HfscClass};
ghost use Rattle.hfsc_policy.specs.Classes.{HaveNoLimits};
ghost use Rattle.hfsc_policy.specs.Policy.{hfsc_policy};
ghost use Rattle.hfsc_core.specs.Waiting.{IsNoWait};

use crate::Hfsc;
use discipline::{Discipline, Pick};
use leaf_queue::QueueRule;
use link_clock::LinkClock;

/// What `hfsc` answers by `next` at `now`, in nanoseconds, no earlier than the last end and before 2^63, under the link's clock. Where no
/// class has a limit, and `hfsc` stands for a history up to now, it is never `Wait`: a packet is sent at once wherever one waits. The
/// classes are those of `build`, whose policy the value keeps. Nothing changes. Does not allocate; costs what `next` does.
pub fn next_never_waits<Q: QueueRule + Drop>(
    hfsc: &mut Hfsc<Q>,
    now: u64,
    clock: &LinkClock,
) -> Pick
    requires free { clock.now.link.free ≤ now }
    requires early { now < 2 ^ 63 }
    requires later { (⟦<Hfsc<Q> as Discipline>⟧.view hfsc.old).moment ≤ now }
    ensures due { result ≡ (⟦<Hfsc<Q> as Discipline>⟧.view hfsc.old).due clock.now now }
    ensures never_waits { (cs : List HfscClass) (answer : Answering) (h : List LabelledEvent)
        → (⟦<Hfsc<Q> as Discipline>⟧.view hfsc.old).policy ≡ hfsc_policy cs answer
        → HaveNoLimits cs → (⟦<Hfsc<Q> as Discipline>⟧.view hfsc.old).represents h → IsChoice now clock.now (unlabelled h) → IsNoWait result }
    ensures histories_kept { (h : List LabelledEvent) → (⟦<Hfsc<Q> as Discipline>⟧.view hfsc.old).represents h
        → (⟦<Hfsc<Q> as Discipline>⟧.view hfsc.new).represents h }
{
    hfsc.next(now, clock)
}
