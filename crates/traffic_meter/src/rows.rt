// Worked examples, computed by the checker from the definitions.
ghost use Rattle.std.specs.Prelude.{◌≡◌, ◌∷◌, []};
ghost use Rattle.traffic_meter.specs.Conforming.{allowed, amount, coloured, is_green, is_passed};
ghost use Rattle.traffic_meter.specs.Mark.{code_point, marked_tos};
ghost use Rattle.traffic_meter.specs.Rows.{G, R, Y, at, each, met, srtcm, trtcm};

/// The colours of packets, in the order of their arrival. At 8 Mbit/s a byte takes a microsecond, and at 480 Gbit/s a packet of 60
/// bytes takes a nanosecond.
pub fn worked_colours()
    // 1,000 bytes three times at once, and after what each bucket misses.
    ensures single_rate { met (srtcm 8000000 1500 1500) (each 1000 (0 ∷ 0 ∷ 0 ∷ 1000000 ∷ [])) ≡ G ∷ Y ∷ R ∷ G ∷ [] }
    ensures two_rates { met (trtcm 16000000 2000 8000000 1000) (each 1000 (0 ∷ 0 ∷ 0 ∷ 500000 ∷ []))
        ≡ G ∷ Y ∷ R ∷ Y ∷ [] }
    ensures several_lengths { met (srtcm 8000000 1500 1500)
        (at 1000 0 ∷ at 1000 0 ∷ at 1000 0 ∷ at 500 0 ∷ at 500 0 ∷ []) ≡ G ∷ Y ∷ R ∷ G ∷ Y ∷ [] }

    // The committed bucket of one rate: what it gives in a nanosecond is enough, one unit less is not.
    ensures committed_is_enough { met (srtcm 480000000000 60 0) (each 60 (0 ∷ 1 ∷ 2 ∷ [])) ≡ G ∷ G ∷ G ∷ [] }
    ensures committed_lacks_one { met (srtcm 479999999999 60 0) (each 60 (0 ∷ 1 ∷ 2 ∷ [])) ≡ G ∷ R ∷ G ∷ [] }

    // The excess bucket gets what the committed one cannot hold, and both are filled by one rate.
    ensures excess_is_enough { met (srtcm 960000000000 60 60) (each 60 (0 ∷ 0 ∷ 1 ∷ 1 ∷ 1 ∷ []))
        ≡ G ∷ Y ∷ G ∷ Y ∷ R ∷ [] }
    ensures excess_lacks_one { met (srtcm 959999999999 60 60) (each 60 (0 ∷ 0 ∷ 1 ∷ 1 ∷ 1 ∷ []))
        ≡ G ∷ Y ∷ G ∷ R ∷ R ∷ [] }
    ensures excess_after_two_bursts { met (srtcm 8000000 1000 1000)
        (each 1000 (0 ∷ 0 ∷ 2000000 ∷ 2000000 ∷ 2000000 ∷ [])) ≡ G ∷ Y ∷ G ∷ Y ∷ R ∷ [] }
    ensures excess_one_nanosecond_early { met (srtcm 8000000 1000 1000)
        (each 1000 (0 ∷ 0 ∷ 1999999 ∷ 1999999 ∷ 1999999 ∷ [])) ≡ G ∷ Y ∷ G ∷ R ∷ R ∷ [] }
    ensures full_excess_gets_nothing { met (srtcm 8000000 1000 1000) (each 1000 (0 ∷ 3000000 ∷ 3000000 ∷ 3000000 ∷ []))
        ≡ G ∷ G ∷ Y ∷ R ∷ [] }
    ensures no_excess { met (srtcm 8000000 1000 0) (each 1000 (0 ∷ 0 ∷ 999999 ∷ 1000000 ∷ []))
        ≡ G ∷ R ∷ R ∷ G ∷ [] }

    // A packet that no bucket can hold is red and pays nothing; those that find just enough empty both.
    ensures longer_than_each_bucket { met (srtcm 8000000 1000 1000) (at 1001 0 ∷ at 1000 0 ∷ at 1000 0 ∷ at 1 0 ∷ [])
        ≡ R ∷ G ∷ Y ∷ R ∷ [] }
    ensures longer_than_the_peak_burst { met (trtcm 16000000 1000 8000000 2000) (at 1001 0 ∷ at 1000 0 ∷ at 1 0 ∷ [])
        ≡ R ∷ G ∷ R ∷ [] }

    // A yellow packet of two rates pays from the peak bucket alone.
    ensures longer_than_the_committed_burst { met (trtcm 16000000 2000 8000000 1000)
        (at 1001 0 ∷ at 999 0 ∷ at 1 0 ∷ []) ≡ Y ∷ G ∷ R ∷ [] }

    // Each bucket of two rates, with enough and with one unit less.
    ensures both_are_enough { met (trtcm 480000000000 60 480000000000 60) (each 60 (0 ∷ 1 ∷ 2 ∷ [])) ≡ G ∷ G ∷ G ∷ [] }
    ensures committed_of_two_lacks_one { met (trtcm 480000000000 60 479999999999 60) (each 60 (0 ∷ 1 ∷ 2 ∷ []))
        ≡ G ∷ Y ∷ G ∷ [] }
    ensures peak_lacks_one { met (trtcm 479999999999 60 479999999999 60) (each 60 (0 ∷ 1 ∷ 2 ∷ [])) ≡ G ∷ R ∷ G ∷ [] }
    ensures committed_of_two_is_enough { met (trtcm 960000000000 120 480000000000 60) (each 60 (0 ∷ 0 ∷ 1 ∷ []))
        ≡ G ∷ Y ∷ G ∷ [] }
    ensures committed_of_two_still_lacks_one { met (trtcm 960000000000 120 479999999999 60) (each 60 (0 ∷ 0 ∷ 1 ∷ []))
        ≡ G ∷ Y ∷ Y ∷ [] }
    ensures equal_rates { met (trtcm 8000000 2000 8000000 1000) (each 1000 (0 ∷ 0 ∷ 0 ∷ 1000000 ∷ []))
        ≡ G ∷ Y ∷ R ∷ G ∷ [] }
{}

/// What conforms, and what the colours of some packets come to, the newest packet first. The green packets of the first example are
/// as many as conform.
pub fn worked_amounts()
    ensures allowed { allowed 8000000 1000 (each 1000 (1000000 ∷ 0 ∷ [])) ≡ 16000000000000 }
    ensures as_many_as_conform { coloured is_green (srtcm 8000000 1000 0) (each 1000 (1000000 ∷ 0 ∷ [])) [] ≡ 16000000000000 }
    ensures allowed_at_once { allowed 8000000 3000 (each 1000 (0 ∷ 0 ∷ 0 ∷ [])) ≡ 24000000000000 }
    ensures green { coloured is_green (srtcm 8000000 1500 1500) (each 1000 (1000000 ∷ 0 ∷ 0 ∷ 0 ∷ [])) [] ≡ 16000000000000 }
    ensures green_and_yellow { coloured is_passed (srtcm 8000000 1500 1500) (each 1000 (1000000 ∷ 0 ∷ 0 ∷ 0 ∷ [])) []
        ≡ 24000000000000 }
    ensures green_of_a_stretch { coloured is_green (srtcm 8000000 1500 1500) (each 1000 (1000000 ∷ 0 ∷ 0 ∷ []))
        (each 1000 (0 ∷ [])) ≡ 8000000000000 }
    ensures of_all_colours { amount (each 1000 (1000000 ∷ 0 ∷ 0 ∷ 0 ∷ [])) ≡ 32000000000000 }
{}

/// The twelve code points of RFC 2597, and types of service that get one.
pub fn code_points()
    ensures class_1 { code_point 1 G ∷ code_point 1 Y ∷ code_point 1 R ∷ [] ≡ 10 ∷ 12 ∷ 14 ∷ [] }
    ensures class_2 { code_point 2 G ∷ code_point 2 Y ∷ code_point 2 R ∷ [] ≡ 18 ∷ 20 ∷ 22 ∷ [] }
    ensures class_3 { code_point 3 G ∷ code_point 3 Y ∷ code_point 3 R ∷ [] ≡ 26 ∷ 28 ∷ 30 ∷ [] }
    ensures class_4 { code_point 4 G ∷ code_point 4 Y ∷ code_point 4 R ∷ [] ≡ 34 ∷ 36 ∷ 38 ∷ [] }
    ensures unmarked { marked_tos 1 G 0 ∷ marked_tos 1 Y 0 ∷ marked_tos 1 R 0 ∷ [] ≡ 40 ∷ 48 ∷ 56 ∷ [] }
    ensures keeps_the_low_bits { marked_tos 1 R 3 ∷ marked_tos 1 Y 255 ∷ marked_tos 4 R 255 ∷ [] ≡ 59 ∷ 51 ∷ 155 ∷ [] }
{}
