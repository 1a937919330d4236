//! Laws that join `play` and `verify`: what a play leaves is verified. The functions do nothing: each states its laws.
#![tactic(auto)]

ghost use Rattle.std.specs.Prelude.{◌≡◌, ℕ, IsTrue, List, Ok};
ghost use Rattle.altq_model.specs.Arrivals.{Captured, bare_arrivals};
ghost use Rattle.altq_model.specs.History.{Arrival, LabelledEvent, journal};
ghost use Rattle.altq_model.specs.Lawful.{AreHeld, AreRising};
ghost use Rattle.altq_model.specs.Play.{AreDue};
ghost use Rattle.command_form.specs.Ends.{Ends};
ghost use Rattle.command_form.specs.Names.{GivenNames, Names};
ghost use Rattle.conf_laws.specs.Fit.{IsInterface};
ghost use Rattle.conf_tree.specs.declared.interface.Interface.{Interface};
ghost use Rattle.fate_departures.specs.Frames.{Packets};
ghost use Rattle.fate_laws.specs.Plays.{CanOccur, MarksAreAllowed};
ghost use Rattle.given_play.specs.Rights.{allowed_of, marks_of};
ghost use Rattle.interface_policy.specs.Policy.{policy_of};
ghost use Rattle.play_base.specs.View.{View};
ghost use Rattle.play_command.specs.Ending.{PlayEnds};
ghost use Rattle.play_command.specs.Headline.{HasPlayed};
ghost use Rattle.play_words.specs.Words.{AreDistinct};
ghost use Rattle.run_outcomes.specs.Outcome.{Outcome};
ghost use Rattle.run_outcomes.specs.declared.outcome.Done.TheVariants as done;
ghost use Rattle.run_outcomes.specs.declared.status.Status.{Status};
ghost use Rattle.verify_command.specs.Verifying.{IsVerified, VerifyEnds};
ghost use Rattle.verify_laws.specs.Left.{AreLeft, HasItsStatus, HoldsBytes, IsVerification, inputs_played};

mod memory;
mod rows;

use conf_laws::configurations_fit;
use frame_classes::frames_have_classes;
use interface_policy::interfaces_keep_their_promises;
pub use memory::memory_holds_bytes;
pub use rows::worked_fates;

/// In each play of an interface, however many of its events there were, each fate can occur in the class of its packet: by share in
/// HFSC, by real time in a class with a real-time curve that is not 0 everywhere, by a class's own rate in CBQ, by borrowing in a
/// class that may, and no early or forced drop but in a class with RED, RED that marks, or RIO. A packet is marked only in a class with
/// `ecn`, and where its precedence is 1.
#[tactic(auto, using(crate::proofs::Causes::play_can_occur, crate::proofs::Causes::play_marks))]
pub fn fates_of_plays_can_occur()
    ensures causes { (i : Interface) (seed : ℕ) (arrived : List Arrival) (g : List LabelledEvent) → IsInterface i → AreRising arrived
        → AreHeld (policy_of i) arrived → AreDue (policy_of i) i.rate seed arrived g → CanOccur (allowed_of i) arrived (journal g) }
    ensures marks { (i : Interface) (seed : ℕ) (arrived : List Captured) (p : Packets) (g : List LabelledEvent) → IsInterface i
        → AreRising (bare_arrivals arrived) → AreHeld (policy_of i) (bare_arrivals arrived) → AreDue (policy_of i) i.rate seed (bare_arrivals arrived) g
        → p.arrived ≡ bare_arrivals arrived → p.marks ≡ marks_of i → MarksAreAllowed p arrived g }
{}

/// Whatever a play with status 0 left is verified, where it is verified over the same configuration, interface and arrivals: the files
/// pass every test, and are no longer than `verify` reads (`files`). So no verification of them ends as `Refuted`, whatever faults it
/// meets; where no count of faults rises, it ends as done, or memory runs out (`ends`): of two calls of `run` the second has not code
/// 10 (`statuses`). It is so of HFSC and of CBQ, of every drop rule, and of the classes that are implied. That the bytes under the
/// arrivals' name are bytes is asked, since a view might tell greater numbers. Directly after a play the same words name such files
/// (`left`).
pub fn played_files_are_verified()
    ensures files { (old new v : View) (n : Names) (m : GivenNames) (seed : ℕ) → HasPlayed old new n seed → HoldsBytes old n.arrivals
        → AreLeft old new v n m → IsVerified v m }
    ensures ends { (old new v w : View) (n : Names) (m : GivenNames) (seed : ℕ) (o : Outcome) → IsTrue old.tells → IsTrue v.tells
        → HoldsBytes old n.arrivals → PlayEnds old new n seed (Ok done.Done) → AreLeft old new v n m → VerifyEnds v w m o → IsVerification v w o }
    ensures statuses { (old new v w : View) (n : Names) (m : GivenNames) (seed : ℕ) (s t : Status) → IsTrue old.tells → IsTrue v.tells
        → HoldsBytes old n.arrivals → Ends (λ u o. PlayEnds old u n seed o) new s → s.code ≡ 0 → AreLeft old new v n m
        → Ends (λ u o. VerifyEnds v u m o) w t → HasItsStatus v w t }
    ensures left { (old new : View) (n : Names) (seed : ℕ) → IsTrue old.tells → AreDistinct n.config n.arrivals n.departures n.fates n.stats
        → PlayEnds old new n seed (Ok done.Done) → AreLeft old new new n (inputs_played n) }
{
    configurations_fit();
    frames_have_classes();
    interfaces_keep_their_promises();
}
