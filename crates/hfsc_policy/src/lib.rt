//! HFSC as a policy over the events of a link, and its laws.
//!
//! The leaves of a tree of classes send. After every list of events the policy says what a queue answers, from when on a leaf
//! may send, and which leaf is chosen, by real time or by share. It is made of the definitions alone: what a discipline does is
//! compared with it. The source is Stoica, Zhang and Ng, "A Hierarchical Fair Service Curve Algorithm for Link-Sharing,
//! Real-Time and Priority Services", SIGCOMM 1997; upper limits are those of altq.conf(5). The functions do nothing: each states
//! its laws, and a caller that cites one calls nothing at run time.
#![tactic(auto)]

ghost use Rattle.std.specs.Prelude.{◌≡◌, ◌≤◌, ◌<◌, ◌^◌, ℕ, List, IsTrue};
ghost use Rattle.altq_model.specs.Busy.{IsBusy};
ghost use Rattle.altq_model.specs.History.{Arrival, Event, LabelledEvent, unlabelled, waiting};
ghost use Rattle.altq_model.specs.Lawful.{AreRising, IsLawful, IsSteady, NeverWaits, SendsWhen};
ghost use Rattle.altq_model.specs.Link.{HasLinkEnds};
ghost use Rattle.altq_model.specs.Play.{AreDue};
ghost use Rattle.altq_model.specs.Policies.{Answering};
ghost use Rattle.discipline.specs.Laws.{AreDistinct};
ghost use Rattle.discipline.specs.Moments.{IsOrderly};
ghost use Rattle.hfsc_model.specs.declared.HfscClass.{HfscClass};
ghost use Rattle.hfsc_model.specs.Choice.{may_send};
ghost use Rattle.hfsc_model.specs.Event.{HfscHistory};
ghost use Rattle.hfsc_model.specs.Leaf.{leaf};
ghost use Rattle.hfsc_model.specs.Share.{total, virtual_time};
ghost use Rattle.hfsc_model.specs.Timely.{FitLink, IsTimely};
ghost use Rattle.hfsc_model.specs.Tree.{reals};
ghost use Rattle.hfsc_policy.specs.Classes.{HaveNoLimits, IsClassTree};
ghost use Rattle.hfsc_policy.specs.Events.{hfsc_history, waits};
ghost use Rattle.hfsc_policy.specs.Heads.{AreFew, AreHeads, AreSized, kept_in};
ghost use Rattle.hfsc_policy.specs.Policy.{hfsc_policy};

/// The policy gives the least moment from which a leaf that waits may send, an offer changes nothing for such a leaf, and its pick
/// is a leaf that may send wherever there is one. So it is lawful and steady, over every list of events, also one with packets of
/// classes that have children. No leaf is twice in it, and where no class has a limit it never waits.
#[tactic(auto, using(crate::proofs::Lawful::sends_when, crate::proofs::Lawful::lawful, crate::proofs::Lawful::steady, crate::proofs::Lawful::never_waits))]
pub fn hfsc_is_lawful()
    ensures moments { (cs : List HfscClass) (answer : Answering) → IsClassTree cs
        → SendsWhen (λ h c t. IsTrue (may_send cs (hfsc_history h) t c)) (hfsc_policy cs answer) }
    ensures lawful { (cs : List HfscClass) (answer : Answering) → IsClassTree cs → IsLawful (hfsc_policy cs answer) }
    ensures steady { (cs : List HfscClass) (answer : Answering) → IsClassTree cs → IsSteady (hfsc_policy cs answer) }
    ensures never_waits { (cs : List HfscClass) (answer : Answering) → HaveNoLimits cs → NeverWaits (hfsc_policy cs answer) }
    ensures distinct { (cs : List HfscClass) (answer : Answering) → AreDistinct (hfsc_policy cs answer).classes }
{}

/// What waits in a class after the events of a link is what waits in it after the history that HFSC sees.
#[tactic(auto, using(crate::proofs::Histories::leaf_waits))]
pub fn hfsc_sees_what_waits()
    ensures { (c : ℕ) (h : List Event) → (leaf (hfsc_history h) c).waiting ≡ waits (waiting c h) }
{}

/// Where the real-time curves never exceed the link, each packet of a leaf with such a curve ends at most the time of the longest
/// packet, rounded up, after each moment that is due for it, whatever packets come and whatever the queues answer. It holds of
/// every history in order with the link's ends in which the link never idles while a leaf may send, and of every play. Every
/// prefix of such a history is one too. In a history in order packets have lengths that may be, and each sending is of a head.
#[tactic(auto, using(crate::proofs::Orderly::timely_in_order, crate::proofs::Orderly::orderly_heads, crate::proofs::Plays::play_timely))]
pub fn leaves_are_timely()
    ensures heads { (cs : List HfscClass) (answer : Answering) (h : List Event) → IsOrderly (hfsc_policy cs answer) h → AreHeads (hfsc_history h) }
    ensures histories { (cs : List HfscClass) (answer : Answering) (rate : ℕ) (h : List Event) → 0 < rate → IsClassTree cs
        → IsOrderly (hfsc_policy cs answer) h → HasLinkEnds rate h → IsBusy (hfsc_policy cs answer) rate h
        → FitLink rate (reals cs) → IsTimely rate (reals cs) (hfsc_history h) }
    ensures plays { (cs : List HfscClass) (answer : Answering) (rate seed : ℕ) (arrived : List Arrival) → 0 < rate → IsClassTree cs
        → AreSized arrived → (g : List LabelledEvent) → AreRising arrived → AreDue (hfsc_policy cs answer) rate seed arrived g
        → FitLink rate (reals cs) → IsTimely rate (reals cs) (hfsc_history (unlabelled g)) }
{}

/// While at most 4,000,000 packets were kept, of at most 262,144 bytes each, the units sent of a class, by real time or in all,
/// are at most 2^73, and virtual times, in nanoseconds, are below 2^75. No more are sent than were kept, as each sending is of a
/// head.
#[tactic(auto, using(crate::proofs::Few::are_few, crate::proofs::Small::counts_small, crate::proofs::Small::totals_small, crate::proofs::Small::times_small))]
pub fn numbers_stay_small()
    ensures few { (h : HfscHistory) → AreHeads h → kept_in h ≤ 4000000 → AreFew h }
    ensures counts { (h : HfscHistory) (c : ℕ) → AreFew h → (leaf h c).count ≤ 2 ^ 73 }
    ensures totals { (cs : List HfscClass) (h : HfscHistory) (c : ℕ) → AreFew h → total cs h c ≤ 2 ^ 73 }
    ensures times { (cs : List HfscClass) (h : HfscHistory) (c : ℕ) → IsClassTree cs → AreFew h → virtual_time cs h c < 2 ^ 75 }
{}
