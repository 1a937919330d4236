//! The laws of every play's journal, in words of its decisions and of the arrivals alone. So a journal that is given, whoever made
//! it, can be held to them. The functions do nothing: each states its laws.
#![tactic(auto)]

ghost use Rattle.std.specs.Prelude.{◌<◌, ℕ, List};
ghost use Rattle.altq_model.specs.History.{Arrival, LabelledEvent, journal};
ghost use Rattle.altq_model.specs.Lawful.{AreHeld, AreRising, IsLawful, NeverWaits};
ghost use Rattle.altq_model.specs.Play.{AreDue, IsPlay, Policy};
ghost use Rattle.journal_laws.specs.Journal.{AreDecisions, IsBusy, IsJournal};

mod rows;

pub use rows::worked_journals;

/// The journal of every play of a lawful policy keeps the laws, and so do the decisions of its first events, however many. Where any
/// class may send at any moment, each sending starts as soon as it can.
pub fn journals_keep_the_laws()
    ensures decisions { (p : Policy) (rate seed : ℕ) (arrived : List Arrival) (g : List LabelledEvent) → 0 < rate → IsLawful p → AreRising arrived
        → AreDue p rate seed arrived g → AreDecisions rate arrived (journal g) }
    ensures whole { (p : Policy) (rate seed : ℕ) (arrived : List Arrival) (g : List LabelledEvent) → 0 < rate → IsLawful p → AreRising arrived
        → AreHeld p arrived → IsPlay p rate seed arrived g → IsJournal rate arrived (journal g) }
    ensures busy { (p : Policy) (rate seed : ℕ) (arrived : List Arrival) (g : List LabelledEvent) → 0 < rate → IsLawful p → NeverWaits p → AreRising arrived
        → AreHeld p arrived → AreDue p rate seed arrived g → IsBusy arrived (journal g) }
{}
