//! When a leaf of HFSC opens, said of its packets: laws over the definitions alone. The functions do nothing. The source is Stoica,
//! Zhang and Ng, "A Hierarchical Fair Service Curve Algorithm for Link-Sharing, Real-Time and Priority Services", SIGCOMM 1997.

ghost use Rattle.std.specs.Prelude.{◌≡◌, ℕ, List, Option};
ghost use Rattle.service_curve.specs.declared.Curve.{Curve};
ghost use Rattle.hfsc_model.specs.Event.{HfscHistory};
ghost use Rattle.hfsc_model.specs.Leaf.{leaf};
ghost use Rattle.hfsc_model.specs.Timely.{AreChosen, AreInOrder};
ghost use Rattle.hfsc_laws.specs.Openings.{openings_of, packets};

/// A leaf opens where a packet that is kept arrives later than the starts of all packets that were kept in it before, all of them sent;
/// that opening counts the units of the leaf's sendings by real time that start before it. It holds of every history in order whose
/// sendings are of heads.
#[tactic(auto, using(crate::proofs::Opened::opened_by_packets))]
pub fn leaves_open_where_all_has_started()
    ensures { (curves : List (Option Curve)) (h : HfscHistory) (c : ℕ) → AreInOrder h → AreChosen curves h
        → (leaf h c).openings ≡ openings_of (packets h c) }
{}
