//! Laws of every history of HFSC, over the definitions alone.
//!
//! The source is Stoica, Zhang and Ng, "A Hierarchical Fair Service Curve Algorithm for Link-Sharing, Real-Time and Priority
//! Services", SIGCOMM 1997: the guarantee of a service curve.
#![tactic(auto)]

ghost use Rattle.std.specs.Prelude.{◌<◌, ℕ, List, Option};
ghost use Rattle.service_curve.specs.declared.Curve.{Curve};
ghost use Rattle.hfsc_model.specs.Event.{HfscHistory};
ghost use Rattle.hfsc_model.specs.Link.{AreOneByOne};
ghost use Rattle.hfsc_model.specs.Timely.{AreInOrder, IsBusy, AreChosen, FitLink, IsTimely};

/// Where the real-time curves never exceed the link, each packet of a class with such a curve ends at most the time of the
/// longest packet, rounded up, after each moment that is due for it, whatever packets come. What is asked of the history:
/// each sending by real time is HFSC's pick, and one by share comes only where no head is eligible; and a sending starts
/// when the one before it ends, when the first waiting packet arrives, or at a moment just before which no head was
/// eligible. So upper limits may hold the link, and how link sharing chooses does not matter. Every prefix of a history is
/// one too.
#[tactic(auto, using(crate::proofs::Timing::timely))]
pub fn packets_are_timely()
    ensures { (rate : ℕ) (curves : List (Option Curve)) (h : HfscHistory) → 0 < rate → AreInOrder h → AreOneByOne rate h
        → IsBusy rate curves h → AreChosen curves h → FitLink rate curves → IsTimely rate curves h }
{}

mod leaf_openings;
mod opening_rows;
mod pick;
mod share;

pub use leaf_openings::leaves_open_where_all_has_started;
pub use opening_rows::worked_openings;
pub use pick::computed_picks_are_picks;
pub use share::{
    activity_is_that_of_children, classes_begin_at_their_activation, packets_make_their_path_active,
};
