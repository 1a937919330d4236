//! The definitions of HFSC, in specs/, and the class that they speak of.
//!
//! HFSC sends by two rules: by real time the eligible head of least deadline; where no head is eligible, by share, down
//! from the root by least virtual time, within upper limits. The source is Stoica, Zhang and Ng, "A Hierarchical Fair
//! Service Curve Algorithm for Link-Sharing, Real-Time and Priority Services", SIGCOMM 1997; limits are those of
//! altq.conf(5).
#![tactic(auto)]

ghost use Rattle.std.specs.Prelude.{◌≡◌, ◌∷◌, ℕ, [], Option, Some, None, true, false};
ghost use Rattle.service_curve.specs.declared.Curve.{Curve};
ghost use Rattle.hfsc_model.specs.Event.{HfscHistory, Enqueued, Sent};
ghost use Rattle.hfsc_model.specs.Leaf.{Leaf, leaf};
ghost use Rattle.hfsc_model.specs.Tree.{reals};
ghost use Rattle.hfsc_model.specs.RealTime.{curve_of, head_deadline, has_come, is_eligible, soonest_of, IsOpenBy};
ghost use Rattle.hfsc_model.specs.Choice.{by_real_time, by_share, choice, with_chosen};
ghost use Rattle.hfsc_model.specs.Rows.{kept, starts, choices, sent_classes, times_of, voice_and_data, twins, quarters, filling, limited, limited_in_real_time, first_burst, second_burst, due_of, three, nested, one_leaf, limited_twice, openings_of_two};
ghost use Rattle.hfsc_model.specs.Share.{virtual_time};
ghost use Rattle.hfsc_model.specs.Link.{free, run_after};
ghost use Rattle.runtime_curve.specs.Opening.{opening};
ghost use Rattle.service_curve.specs.Curve.{curve, straight};

use service_curve::Curve;

mod timely;

pub use timely::timely_at_the_bound;

/// A class of HFSC: its parent, `None` for the root, its real-time curve, its link-sharing curve and its upper limit.
#[derive(Clone, Copy, Debug, PartialEq, Eq)]
pub struct HfscClass {
    pub parent: Option<u32>,
    pub real: Option<Curve>,
    pub share: Option<Curve>,
    pub limit: Option<Curve>,
}

/// While no opening lies ahead, a head is eligible exactly from its soonest moment on.
#[tactic(auto, using(crate::proofs::Soonest::eligible_from_soonest))]
pub fn heads_are_eligible_from_a_moment_on()
    ensures { (o : Option Curve) (l : Leaf) (now : ℕ) → IsOpenBy l.openings now → is_eligible o l now ≡ has_come (soonest_of o l) now }
{}

/// Fifty packets of the data leaf wait from 0 on; one of the voice leaf that comes at 10 milliseconds goes at once.
pub fn voice_overtakes_bulk_data()
    ensures first { choices (with_chosen voice_and_data (kept 50 2 0 1000 []) (0 ∷ 1000000 ∷ [])) ≡ by_real_time 2 ∷ by_share 2 ∷ [] }
    ensures voice { choice voice_and_data (Enqueued 1 10000000 200 ∷ with_chosen voice_and_data (kept 50 2 0 1000 []) (starts 10 0 1000000)) 10000000
        ≡ Some (by_real_time 1) }
    ensures first_deadline { head_deadline (curve_of (reals voice_and_data) 2) (leaf (kept 50 2 0 1000 []) 2) ≡ Some 7000000 }
    ensures voice_deadline { head_deadline (curve_of (reals voice_and_data) 1) (leaf (Enqueued 1 10000000 200 ∷ []) 1) ≡ Some 10400000 }
    ensures data_deadline { head_deadline (curve_of (reals voice_and_data) 2) (leaf (with_chosen voice_and_data (kept 50 2 0 1000 []) (starts 10 0 1000000)) 2)
        ≡ Some 17000000 }
    ensures due { due_of 8000000 (curve 4000000 5000000 1000000) (Sent 1 200 true 10000000 ∷ Enqueued 1 10000000 200 ∷ []) 1 ≡ Some 10400000 }
{}

/// Two leaves of one curve, the packet of the second arriving first.
pub fn equal_deadlines_go_by_file_order()
    ensures deadline { head_deadline (curve_of (reals twins) 1) (leaf (Enqueued 1 0 1000 ∷ Enqueued 2 0 1000 ∷ []) 1) ≡ Some 4000000 }
    ensures other { head_deadline (curve_of (reals twins) 2) (leaf (Enqueued 1 0 1000 ∷ Enqueued 2 0 1000 ∷ []) 2) ≡ Some 4000000 }
    ensures order { choices (with_chosen twins (Enqueued 1 0 1000 ∷ Enqueued 2 0 1000 ∷ []) (0 ∷ 1000000 ∷ [])) ≡ by_real_time 1 ∷ by_real_time 2 ∷ [] }
{}

/// Leaves that share a link by one and three: which goes when, and the virtual times of the second after its sendings.
pub fn quarter_and_three_quarters()
    ensures order { sent_classes (with_chosen quarters (kept 6 2 0 1000 (kept 3 1 0 1000 [])) (starts 9 0 1000000))
        ≡ 1 ∷ 2 ∷ 2 ∷ 2 ∷ 1 ∷ 2 ∷ 2 ∷ 2 ∷ 1 ∷ [] }
    ensures times { times_of quarters 2 (with_chosen quarters (kept 6 2 0 1000 (kept 3 1 0 1000 [])) (starts 9 0 1000000))
        ≡ 1333334 ∷ 2666667 ∷ 4000000 ∷ 5333334 ∷ 6666667 ∷ 8000000 ∷ [] }
    ensures times_of_a { times_of quarters 1 (with_chosen quarters (kept 6 2 0 1000 (kept 3 1 0 1000 [])) (starts 9 0 1000000))
        ≡ 4000000 ∷ 8000000 ∷ 12000000 ∷ [] }
{}

/// A leaf without a real-time curve waits for its limit.
pub fn link_waits_for_an_upper_limit()
    ensures sent { choices (with_chosen limited (kept 3 1 0 1000 []) (0 ∷ 4000000 ∷ 8000000 ∷ [])) ≡ by_share 1 ∷ by_share 1 ∷ by_share 1 ∷ [] }
    ensures waits { choice limited (with_chosen limited (kept 3 1 0 1000 []) (0 ∷ [])) 3999999 ≡ None }
    ensures goes { choice limited (with_chosen limited (kept 3 1 0 1000 []) (0 ∷ [])) 4000000 ≡ Some (by_share 1) }
    ensures waits_again { choice limited (with_chosen limited (kept 3 1 0 1000 []) (0 ∷ 4000000 ∷ [])) 7999999 ≡ None }
{}

/// By real time the same leaf is sent above its limit.
pub fn real_time_ignores_the_limit()
    ensures sent { choices (with_chosen limited_in_real_time (kept 3 1 0 1000 []) (0 ∷ 2000000 ∷ 4000000 ∷ []))
        ≡ by_real_time 1 ∷ by_real_time 1 ∷ by_real_time 1 ∷ [] }
    ensures waits { choice limited_in_real_time (with_chosen limited_in_real_time (kept 3 1 0 1000 []) (0 ∷ [])) 1999999 ≡ None }
{}

/// Two leaves whose curves together take the whole link. The second is empty for a while; of a burst for both, its packets go
/// first.
pub fn exact_fit_with_a_returning_burst()
    ensures alone { choice filling first_burst 15000000 ≡ None }
    ensures burst { choice filling (second_burst 0) 16000000 ≡ Some (by_real_time 2) }
    ensures last { choice filling (second_burst 99) 25900000 ≡ Some (by_real_time 2) }
    ensures deadline { head_deadline (curve_of (reals filling) 2) (leaf (second_burst 99) 2) ≡ Some 26000000 }
    ensures due { due_of 8000000 (curve 8000000 10000000 0) (second_burst 100) 2 ≡ Some 26000000 }
    ensures back { choice filling (second_burst 100) 26000000 ≡ Some (by_real_time 1) }
    ensures back_deadline { head_deadline (curve_of (reals filling) 1) (leaf (second_burst 100) 1) ≡ Some 26100000 }
{}

/// The virtual time of a class that becomes active. A packet of 1,000 bytes, 8·10^12 units, moves that of the first leaf by
/// 8·10^12 / 2,000,000 = 4000000 and that of the second by 8·10^12 / 3,000,000 = 2666666.67, rounded up. The middle of these
/// is 3333333.5, rounded down; the high mark is the greater; and a class keeps its own time where that is the greater.
pub fn returning_classes_take_the_middle()
    ensures middle { virtual_time three (Enqueued 3 2000000 1000 ∷ with_chosen three (kept 2 2 0 1000 (kept 2 1 0 1000 [])) (0 ∷ 1000000 ∷ [])) 3 ≡ 3333333 }
    ensures high { virtual_time three (Enqueued 3 2000000 1000 ∷ with_chosen three (kept 1 2 0 1000 (kept 1 1 0 1000 [])) (0 ∷ 1000000 ∷ [])) 3 ≡ 4000000 }
    ensures own { virtual_time three (Enqueued 1 2000000 1000 ∷ with_chosen three (kept 2 2 0 1000 (kept 1 1 0 1000 [])) (0 ∷ 1000000 ∷ [])) 1 ≡ 4000000 }
    ensures lower { virtual_time three (Enqueued 2 2000000 1000 ∷ with_chosen three (kept 1 2 0 1000 (kept 2 1 0 1000 [])) (0 ∷ 1000000 ∷ [])) 2 ≡ 4000000 }
{}

/// What is sent in a leaf counts for the class above it: each packet moves the virtual time of either child of the root by
/// 8·10^12 / 4,000,000 = 2000000, so they take turns. With a limit of 2,000,000 the class above lets its leaf go again after
/// 8·10^12 / 2,000,000 = 4000000.
pub fn classes_above_a_leaf_count()
    ensures turns { sent_classes (with_chosen (nested None) (kept 2 3 0 1000 (kept 2 2 0 1000 [])) (starts 4 0 1000000)) ≡ 2 ∷ 3 ∷ 2 ∷ 3 ∷ [] }
    ensures waits { choice (nested (Some (straight 2000000))) (with_chosen (nested (Some (straight 2000000))) (kept 2 2 0 1000 []) (0 ∷ [])) 3999999 ≡ None }
    ensures goes { choice (nested (Some (straight 2000000))) (with_chosen (nested (Some (straight 2000000))) (kept 2 2 0 1000 []) (0 ∷ [])) 4000000
        ≡ Some (by_share 2) }
{}

/// A limit opens anew whenever its class becomes active, at that arrival and with the total sent so far. Of two packets that
/// come at 10 milliseconds the second therefore waits till 14; by the first opening alone it would go at once. Of two that come
/// at 5 it waits till 9, not 8.
pub fn limits_open_at_arrivals()
    ensures waits { choice limited (limited_twice 10000000) 13999999 ≡ None }
    ensures goes { choice limited (limited_twice 10000000) 14000000 ≡ Some (by_share 1) }
    ensures sooner { choice limited (limited_twice 5000000) 8999999 ≡ None }
    ensures then { choice limited (limited_twice 5000000) 9000000 ≡ Some (by_share 1) }
{}

/// A real-time curve of slopes 0 counts as none; one with a slope of 1 does not, and allows a count of 0 from its opening on.
pub fn curve_of_zero_counts_as_none()
    ensures zero { choice (one_leaf (straight 0)) (Enqueued 1 0 1000 ∷ []) 0 ≡ Some (by_share 1) }
    ensures one { choice (one_leaf (straight 1)) (Enqueued 1 0 1000 ∷ []) 0 ≡ Some (by_real_time 1) }
    ensures later { choice (one_leaf (curve 0 1 1)) (Enqueued 1 0 1000 ∷ []) 0 ≡ Some (by_real_time 1) }
{}

/// A packet that arrives at the start of the one before does not open, one that arrives a nanosecond later does, after the
/// 8·10^12 units of the first.
pub fn opens_later_than_the_start_before()
    ensures at_start { openings_of_two 10000000 ≡ opening 0 0 ∷ [] }
    ensures later { openings_of_two 10000001 ≡ opening 10000001 8000000000000 ∷ opening 0 0 ∷ [] }
{}

/// Three packets of 100 bytes at 3,000,000 bits per second take 800 / 3 microseconds each. The fraction is carried from one
/// to the next: 266666.67, 533333.33 and 800000 nanoseconds, rounded up. A start that is one later begins a run.
pub fn fraction_is_carried_in_a_run()
    ensures first { free 3000000 (run_after 3000000 (Sent 1 100 false 0 ∷ [])) ≡ 266667 }
    ensures second { free 3000000 (run_after 3000000 (Sent 1 100 false 266667 ∷ Sent 1 100 false 0 ∷ [])) ≡ 533334 }
    ensures third { free 3000000 (run_after 3000000 (Sent 1 100 false 533334 ∷ Sent 1 100 false 266667 ∷ Sent 1 100 false 0 ∷ [])) ≡ 800000 }
    ensures begins { free 3000000 (run_after 3000000 (Sent 1 100 false 533335 ∷ Sent 1 100 false 266667 ∷ Sent 1 100 false 0 ∷ [])) ≡ 800002 }
{}
