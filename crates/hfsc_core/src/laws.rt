// What holds of every history of HFSC. The function does nothing: it states the law.
ghost use Rattle.std.specs.Prelude.{◌≡◌, ◌<◌, ℕ, List};
ghost use Rattle.altq_model.specs.Busy.{IsBusy};
ghost use Rattle.altq_model.specs.History.{LabelledEvent, unlabelled};
ghost use Rattle.altq_model.specs.Link.{HasLinkEnds};
ghost use Rattle.altq_model.specs.Policies.{Answering};
ghost use Rattle.hfsc_model.specs.declared.HfscClass.{HfscClass};
ghost use Rattle.hfsc_model.specs.Timely.{FitLink, IsTimely};
ghost use Rattle.hfsc_model.specs.Tree.{reals};
ghost use Rattle.hfsc_policy.specs.Classes.{IsClassTree};
ghost use Rattle.hfsc_policy.specs.Events.{hfsc_history};
ghost use Rattle.hfsc_policy.specs.Policy.{hfsc_policy};

use crate::Hfsc;
use discipline::Discipline;
use leaf_queue::QueueRule;

/// In each history that HFSC stands for, whatever came and whatever the queues decided, each packet of a leaf with a real-time curve
/// ends at most the time of the longest packet, rounded up, after each moment that is due for it: where the curves fit the rate, the
/// ends are those of a link of that rate, and that link never idles while a leaf may send. The classes are those of `build`, whose
/// policy the value keeps.
pub fn leaves_are_timely<Q: QueueRule + Drop>(hfsc: &Hfsc<Q>)
    ensures { (cs : List HfscClass) (answer : Answering) → (⟦<Hfsc<Q> as Discipline>⟧.view hfsc.now).policy ≡ hfsc_policy cs answer → IsClassTree cs
        → (rate : ℕ) → 0 < rate → FitLink rate (reals cs) → (h : List LabelledEvent) → (⟦<Hfsc<Q> as Discipline>⟧.view hfsc.now).represents h
        → HasLinkEnds rate (unlabelled h) → IsBusy (hfsc_policy cs answer) rate (unlabelled h) → IsTimely rate (reals cs) (hfsc_history (unlabelled h)) }
{}
