//! How long a packet of an HFSC leaf takes at most, whatever the other classes do: laws over the definitions alone. The functions do
//! nothing: each states its laws. The sources are Stoica, Zhang and Ng, "A Hierarchical Fair Service Curve Algorithm for Link-Sharing,
//! Real-Time and Priority Services", SIGCOMM 1997, and Cruz, "A Calculus for Network Delay", IEEE Transactions on Information Theory
//! 1991.
#![tactic(auto)]

ghost use Rattle.std.specs.Prelude.{◌<◌, ℕ, List, IsSome};
ghost use Rattle.altq_model.specs.Busy.{IsBusy};
ghost use Rattle.altq_model.specs.History.{Arrival, Event, LabelledEvent, unlabelled};
ghost use Rattle.altq_model.specs.Lawful.{AreRising};
ghost use Rattle.altq_model.specs.Link.{HasLinkEnds};
ghost use Rattle.altq_model.specs.Play.{AreDue};
ghost use Rattle.altq_model.specs.Policies.{Answering};
ghost use Rattle.discipline.specs.Moments.{IsOrderly};
ghost use Rattle.service_curve.specs.declared.Curve.{Curve};
ghost use Rattle.hfsc_model.specs.declared.HfscClass.{HfscClass};
ghost use Rattle.hfsc_model.specs.Timely.{FitLink, IsTimely};
ghost use Rattle.hfsc_model.specs.Tree.{reals};
ghost use Rattle.hfsc_policy.specs.Classes.{IsClassTree};
ghost use Rattle.hfsc_policy.specs.Events.{hfsc_history};
ghost use Rattle.hfsc_policy.specs.Heads.{AreSized};
ghost use Rattle.hfsc_policy.specs.Policy.{hfsc_policy};
ghost use Rattle.delay_bound.specs.Bound.{KeepsBounds, OffersRise, bound};

mod rows;

pub use rows::worked_bounds;

/// Where the packets that are offered to a leaf keep to a rate and a burst, the second slope of its real-time curve is at least that
/// rate, and the real-time curves fit the link, each of them that is sent ends within the bound after it arrived: the first moment at
/// which the curve gives the burst, and the time of the longest packet on the link, rounded up. `timely`: it holds of every history
/// whose packets are timely. So it does of every history in order in which the link never idles while a leaf may send, and of every
/// play. There is a bound wherever the second slope is not 0.
#[tactic(auto, using(crate::proofs::Bounds::bound_is_there))]
pub fn packets_keep_their_bounds()
    ensures timely { (cs : List HfscClass) (rate : ℕ) (h : List Event) → 0 < rate → OffersRise h → IsTimely rate (reals cs) (hfsc_history h)
        → KeepsBounds cs rate h }
    ensures histories { (cs : List HfscClass) (answer : Answering) (rate : ℕ) (h : List Event) → 0 < rate → IsClassTree cs
        → IsOrderly (hfsc_policy cs answer) h → HasLinkEnds rate h → IsBusy (hfsc_policy cs answer) rate h → FitLink rate (reals cs)
        → KeepsBounds cs rate h }
    ensures plays { (cs : List HfscClass) (answer : Answering) (rate seed : ℕ) (arrived : List Arrival) → 0 < rate → IsClassTree cs
        → AreSized arrived → (g : List LabelledEvent) → AreRising arrived → AreDue (hfsc_policy cs answer) rate seed arrived g
        → FitLink rate (reals cs) → KeepsBounds cs rate (unlabelled g) }
    ensures there { (s : Curve) (rate most burst : ℕ) → 0 < s.m2 → IsSome (bound s rate most burst) }
{}
