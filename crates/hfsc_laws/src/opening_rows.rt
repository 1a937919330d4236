// Worked openings, computed by the checker from the definitions.
ghost use Rattle.std.specs.Prelude.{◌≡◌, ◌∷◌, [], true, false};
ghost use Rattle.runtime_curve.specs.Opening.{opening};
ghost use Rattle.hfsc_model.specs.Event.{Enqueued, Sent};
ghost use Rattle.hfsc_laws.specs.Openings.{openings_of, packets};

/// A leaf's packet of 1,000 bytes, 8·10^12 units, starts at 10 ms. The second opens where it arrives a nanosecond later, and not where it
/// arrives at that moment, before the start, nor while the first waits. What is sent by share counts nothing.
pub fn worked_openings()
    ensures first { openings_of (packets (Enqueued 1 0 1000 ∷ []) 1) ≡ opening 0 0 ∷ [] }
    ensures returns { openings_of (packets (Enqueued 1 10000001 1000 ∷ Sent 1 1000 true 10000000 ∷ Enqueued 1 0 1000 ∷ []) 1)
        ≡ opening 10000001 8000000000000 ∷ opening 0 0 ∷ [] }
    ensures at_the_start { openings_of (packets (Sent 1 1000 true 10000000 ∷ Enqueued 1 10000000 1000 ∷ Enqueued 1 0 1000 ∷ []) 1) ≡ opening 0 0 ∷ [] }
    ensures still_waits { openings_of (packets (Enqueued 1 10000001 1000 ∷ Enqueued 1 0 1000 ∷ []) 1) ≡ opening 0 0 ∷ [] }
    ensures by_share { openings_of (packets (Enqueued 1 10000001 1000 ∷ Sent 1 1000 false 10000000 ∷ Enqueued 1 0 1000 ∷ []) 1)
        ≡ opening 10000001 0 ∷ opening 0 0 ∷ [] }
    ensures of_its_own_class { openings_of (packets (Enqueued 2 5 1000 ∷ Enqueued 1 0 1000 ∷ []) 2) ≡ opening 5 0 ∷ [] }
{}
