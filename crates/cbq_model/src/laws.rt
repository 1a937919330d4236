// Laws of CBQ. The functions do nothing: each states its laws.
ghost use Rattle.std.specs.Prelude.{◌≡◌, ◌≤◌, ◌<◌, ℕ, List, IsTrue};
ghost use Rattle.altq_model.specs.History.{Arrival, Event, LabelledEvent, Sending, unlabelled};
ghost use Rattle.altq_model.specs.Lawful.{AreRising, IsLawful, IsSteady, SendsWhen};
ghost use Rattle.altq_model.specs.Play.{AreDue};
ghost use Rattle.altq_model.specs.Policies.{Answering};
ghost use Rattle.cbq_model.specs.declared.CbqClass.{CbqClass};
ghost use Rattle.cbq_model.specs.Capped.{AreSendings, IsStretch, KeepsItsRate};
ghost use Rattle.cbq_model.specs.Choice.{may};
ghost use Rattle.cbq_model.specs.Rounds.{cbq, situation};
ghost use Rattle.cbq_model.specs.Tree.{class_of};

/// CBQ starts a class at the least moment at which it may send, of itself or by a loan, and picks one that may: so it is lawful and
/// steady, after every history and whatever its queues answer.
pub fn cbq_is_lawful()
    ensures moments { (cs : List CbqClass) (rate : ℕ) (answer : Answering) → 0 < rate
        → SendsWhen (λ h c t. IsTrue (may cs rate (situation cs rate h) c t)) (cbq cs rate answer) }
    ensures lawful { (cs : List CbqClass) (rate : ℕ) (answer : Answering) → 0 < rate → IsLawful (cbq cs rate answer) }
    ensures steady { (cs : List CbqClass) (rate : ℕ) (answer : Answering) → 0 < rate → IsSteady (cbq cs rate answer) }
{}

/// A class without children that is not the root keeps to its rate while it does not borrow: within each stretch of such sendings it
/// is at most one burst and one packet ahead of 32/31 of its rate. This holds of every history of CBQ's sendings, and the first
/// events of a play of CBQ are one.
pub fn class_keeps_its_rate()
    ensures rate { (cs : List CbqClass) (rate c : ℕ) (last : Sending) (between : List Event) (first : Sending) (before : List Event)
        → 0 < rate → 0 < (class_of cs c).rate → IsStretch cs rate c last between first before → KeepsItsRate cs c last between first }
    ensures plays { (cs : List CbqClass) (rate seed : ℕ) (answer : Answering) (arrived : List Arrival) (g : List LabelledEvent) → 0 < rate → AreRising arrived
        → AreDue (cbq cs rate answer) rate seed arrived g → AreSendings cs rate (unlabelled g) }
{}
