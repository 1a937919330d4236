// Worked bounds, computed by the checker from the definitions.
ghost use Rattle.std.specs.Prelude.{◌≡◌, ◌∷◌, [], None, Some};
ghost use Rattle.service_curve.specs.Curve.{curve, straight};
ghost use Rattle.altq_model.specs.declared.Reason.TheVariants.{Full};
ghost use Rattle.altq_model.specs.declared.Verdict.TheVariants.{Drop, Keep};
ghost use Rattle.altq_model.specs.History.{Offered};
ghost use Rattle.delay_bound.specs.Bound.{bound, offers_in};

/// Bounds on a link of 8 Mbit/s, on which a packet of 1,000 bytes takes 1 ms, by the curve and the burst in bytes. At 4 Mbit/s a byte
/// takes 2 µs, at 1 Mbit/s 8 µs; in 5 ms 4 Mbit/s carry 2,500 bytes, and in 10 ms 8 Mbit/s carry 10,000.
pub fn worked_bounds()
    // A slope that falls: one byte, 200 bytes, all that comes before the bend, and a byte more.
    ensures one_byte { bound (curve 4000000 5000000 1000000) 8000000 1000 1 ≡ Some 1002000 }
    ensures calls { bound (curve 4000000 5000000 1000000) 8000000 1000 200 ≡ Some 1400000 }
    ensures at_the_bend { bound (curve 4000000 5000000 1000000) 8000000 1000 2500 ≡ Some 6000000 }
    ensures past_the_bend { bound (curve 4000000 5000000 1000000) 8000000 1000 2501 ≡ Some 6008000 }

    // A slope that rises from 0: nothing comes before the bend, and then a byte in 1 µs.
    ensures rises { bound (curve 0 10000000 8000000) 8000000 1000 1 ≡ Some 11001000 }
    ensures rises_to_a_packet { bound (curve 0 10000000 8000000) 8000000 1500 1500 ≡ Some 13000000 }

    // A line; and a packet whose time is no whole number of nanoseconds, 266,666 2/3.
    ensures line { bound (straight 1000000) 8000000 1000 1500 ≡ Some 13000000 }
    ensures rounded { bound (straight 3000000) 3000000 100 100 ≡ Some 533334 }

    // Without a second slope: all that the curve gives, and never a byte more.
    ensures whole { bound (curve 8000000 10000000 0) 8000000 1000 10000 ≡ Some 11000000 }
    ensures never { bound (curve 8000000 10000000 0) 8000000 1000 10001 ≡ None }

    // What is offered to a class, dropped or not, is what its bound asks for; other classes are not.
    ensures offers { offers_in 1
        (Offered (record { class = 1; len = 60; prec = 0; at = 9 }) (record { seed = 42; drawn = 0 }) (record { verdict = Drop Full; took = 0 })
        ∷ Offered (record { class = 2; len = 70; prec = 0; at = 8 }) (record { seed = 42; drawn = 0 }) (record { verdict = Keep; took = 0 })
        ∷ Offered (record { class = 1; len = 80; prec = 0; at = 7 }) (record { seed = 42; drawn = 0 }) (record { verdict = Keep; took = 0 }) ∷ [])
        ≡ record { moment = 9; len = 60 } ∷ record { moment = 7; len = 80 } ∷ [] }
{}
