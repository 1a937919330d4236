// What holds of a play that goes on, and of one that ended.
ghost use Rattle.std.specs.Prelude.{◌≡◌, ◌≤◌, ◌++◌, List, length, None};
ghost use Rattle.altq_model.specs.Arrivals.{Captured, bare_arrivals};
ghost use Rattle.altq_model.specs.History.{DrawnWords, LabelledEvent};
ghost use Rattle.altq_model.specs.Lawful.{AreHeld, AreRising};
ghost use Rattle.altq_model.specs.Play.{due};
ghost use Rattle.play_core.specs.Ended.{IsCutOff};
ghost use Rattle.play_core.specs.Finished.{EndsWithOffer, IsFinished, IsStopped};
ghost use Rattle.play_core.specs.Going.{IsGoing};

use crate::Progress;
use discipline::Discipline;

/// The laws of a play that goes on. It does nothing. `read`: where all that had arrived was offered last, the play goes on with what
/// is read next. `finished`: where nothing is due, it is the whole play, with all its laws. `stopped`: where the next sending would
/// end too late, it is cut off there.
pub fn plays_go_on<D: Discipline>(discipline: &D, progress: &Progress)
    ensures read { (arrived more : List Captured) (w : DrawnWords) (g : List LabelledEvent) → EndsWithOffer g
        → AreRising (bare_arrivals (arrived ++ more)) → length (arrived ++ more) ≤ 4000000
        → IsGoing (D.view discipline.now) arrived w progress.now g → IsGoing (D.view discipline.now) (arrived ++ more) w progress.now g }
    ensures finished { (arrived : List Captured) (w : DrawnWords) (g : List LabelledEvent) → AreHeld (D.view discipline.now).policy (bare_arrivals arrived)
        → due (D.view discipline.now).policy progress.now.clock.rate w.seed (bare_arrivals arrived) g ≡ None
        → IsGoing (D.view discipline.now) arrived w progress.now g
        → IsFinished (D.view discipline.now).policy progress.now.clock.rate w.seed arrived g progress.now.totals }
    ensures stopped { (arrived : List Captured) (w : DrawnWords) (g : List LabelledEvent)
        → IsCutOff (D.view discipline.now).policy progress.now.clock.rate w.seed (bare_arrivals arrived) g
        → IsGoing (D.view discipline.now) arrived w progress.now g
        → IsStopped (D.view discipline.now).policy progress.now.clock.rate w.seed arrived g progress.now.totals }
{}
