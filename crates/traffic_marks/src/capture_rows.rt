// Worked examples, computed by the checker from the definitions.
ghost use Rattle.std.specs.Prelude.{◌≡◌, ◌+◌, ◌∷◌, [], ◌++◌, true, false, map, replicate, take};
ghost use Rattle.capture_model.specs.Written.{written};
ghost use Rattle.traffic_marks.specs.Laws.{may_change};
ghost use Rattle.traffic_marks.specs.Marked.{marked};
ghost use Rattle.traffic_marks.specs.Rows.{arp, by_mark, by_nothing, by_version, made, packet, srtcm, tagged, trtcm, v4, v6};

/// Captures and what becomes of them, at a committed rate of 8 Mbit/s, where 1,000 bytes take a millisecond. The checksums are those of RFC 1071.
pub fn worked_captures()
    // Green, yellow, red, and green again after a millisecond.
    ensures single_rate_colours { made by_nothing (srtcm 1 1500 1500 1 ∷ [])
        (packet 0 1000 (v4 0x00 0x65f3) ∷ packet 0 1000 (v4 0x00 0x65f3) ∷ packet 0 1000 (v4 0x00 0x65f3)
        ∷ packet 1000000 1000 (v4 0x00 0x65f3) ∷ [])
        ≡ written (packet 0 1000 (v4 0x28 0x65cb) ∷ packet 0 1000 (v4 0x30 0x65c3) ∷ packet 0 1000 (v4 0x38 0x65bb)
        ∷ packet 1000000 1000 (v4 0x28 0x65cb) ∷ []) }

    // Green, yellow, red, and after half a millisecond yellow: the peak bucket has 1,000 bytes again, the committed one 500.
    ensures two_rate_colours { made by_nothing (trtcm 1 2000 1000 1 ∷ [])
        (packet 0 1000 (v4 0x00 0x65f3) ∷ packet 0 1000 (v4 0x00 0x65f3) ∷ packet 0 1000 (v4 0x00 0x65f3)
        ∷ packet 500000 1000 (v4 0x00 0x65f3) ∷ [])
        ≡ written (packet 0 1000 (v4 0x28 0x65cb) ∷ packet 0 1000 (v4 0x30 0x65c3) ∷ packet 0 1000 (v4 0x38 0x65bb)
        ∷ packet 500000 1000 (v4 0x30 0x65c3) ∷ []) }

    // A frame of ARP is metered and not marked, and both bits of ECN stay.
    ensures frames_of_all_kinds { made by_nothing (srtcm 1 1500 1500 1 ∷ [])
        (packet 0 1000 (tagged 0x00 0x65f3) ∷ packet 0 1000 arp ∷ packet 0 1000 (v6 0x03) ∷ packet 0 500 arp
        ∷ packet 0 500 (v4 0xff 0x64f4) ∷ [])
        ≡ written (packet 0 1000 (tagged 0x28 0x65cb) ∷ packet 0 1000 arp ∷ packet 0 1000 (v6 0x3b) ∷ packet 0 500 arp
        ∷ packet 0 500 (v4 0x33 0x65c0) ∷ []) }

    // A packet arrives at the greatest stamp up to its own: the stamp of 1 ms behind that of 2 ms counts as 2 ms, and the bucket is
    // full again at 3 ms.
    ensures stamps_that_fall { made by_nothing (srtcm 1 1000 0 1 ∷ [])
        (packet 2000000 1000 (v4 0x00 0x65f3) ∷ packet 1000000 1000 (v4 0x00 0x65f3) ∷ packet 2999999 1000 (v4 0x00 0x65f3)
        ∷ packet 3000000 1000 (v4 0x00 0x65f3) ∷ [])
        ≡ written (packet 2000000 1000 (v4 0x28 0x65cb) ∷ packet 1000000 1000 (v4 0x38 0x65bb) ∷ packet 2999999 1000 (v4 0x38 0x65bb)
        ∷ packet 3000000 1000 (v4 0x28 0x65cb) ∷ []) }

    // A packet counts with its whole length, or with its 42 captured bytes where more were captured than it had.
    ensures whole_length_is_enough { made by_nothing (srtcm 1 1000 0 1 ∷ []) (packet 0 1000 (v4 0x00 0x65f3) ∷ [])
        ≡ written (packet 0 1000 (v4 0x28 0x65cb) ∷ []) }
    ensures whole_length_lacks_one { made by_nothing (srtcm 1 999 0 1 ∷ []) (packet 0 1000 (v4 0x00 0x65f3) ∷ [])
        ≡ written (packet 0 1000 (v4 0x38 0x65bb) ∷ []) }
    ensures captured_length_is_enough { made by_nothing (srtcm 1 42 0 1 ∷ []) (packet 0 0 (v4 0x00 0x65f3) ∷ [])
        ≡ written (packet 0 0 (v4 0x28 0x65cb) ∷ []) }
    ensures captured_length_lacks_one { made by_nothing (srtcm 1 41 0 1 ∷ []) (packet 0 0 (v4 0x00 0x65f3) ∷ [])
        ≡ written (packet 0 0 (v4 0x38 0x65bb) ∷ []) }

    // A class without a conditioner is neither marked nor metered, and each conditioner has a meter of its own.
    ensures other_class { made by_version (srtcm 1 1000 0 1 ∷ []) (packet 0 1000 (v6 0x03) ∷ packet 0 1000 (v4 0x00 0x65f3) ∷ [])
        ≡ written (packet 0 1000 (v6 0x03) ∷ packet 0 1000 (v4 0x28 0x65cb) ∷ []) }
    ensures two_meters { made by_version (srtcm 2 1000 0 1 ∷ srtcm 1 1000 1000 1 ∷ [])
        (packet 0 1000 (v6 0x03) ∷ packet 0 1000 (v4 0x00 0x65f3) ∷ packet 0 1000 (v6 0x03) ∷ packet 0 1000 (v4 0x00 0x65f3) ∷ [])
        ≡ written (packet 0 1000 (v6 0x2b) ∷ packet 0 1000 (v4 0x28 0x65cb) ∷ packet 0 1000 (v6 0x3b)
        ∷ packet 0 1000 (v4 0x30 0x65c3) ∷ []) }

    // The class is that of the frame as it came: the meter of the class that the marked frame would have is not asked.
    ensures class_before_the_mark { made by_mark (srtcm 1 1000 0 1 ∷ srtcm 2 1000 0 2 ∷ [])
        (packet 0 1000 (v4 0x00 0x65f3) ∷ packet 0 1000 (v4 0x28 0x65cb) ∷ [])
        ≡ written (packet 0 1000 (v4 0x28 0x65cb) ∷ packet 0 1000 (v4 0x48 0x65ab) ∷ []) }

    // A frame that has the mark already stays, with a wrong checksum too.
    ensures marked_already { made by_nothing (srtcm 1 1000 0 1 ∷ []) (packet 0 1000 (v4 0x28 0x1234) ∷ [])
        ≡ written (packet 0 1000 (v4 0x28 0x1234) ∷ []) }

    // What stands behind the complete records stays, here a record of which a byte is missing; so does all where the head is cut.
    ensures cut_by_one_byte { marked (record { place = by_nothing; conditioners = srtcm 1 1000 0 1 ∷ [] })
        (take 139 (written (packet 0 1000 (v4 0x00 0x65f3) ∷ packet 0 1000 (v4 0x00 0x65f3) ∷ [])))
        ≡ take 139 (written (packet 0 1000 (v4 0x28 0x65cb) ∷ packet 0 1000 (v4 0x00 0x65f3) ∷ [])) }
    ensures head_is_cut { marked (record { place = by_nothing; conditioners = srtcm 1 1000 0 1 ∷ [] }) (replicate 23 7) ≡ replicate 23 7 }
{}

/// Bytes that a mark may change, from the place of a record on: the type of service and the checksum of IPv4, the first two bytes of
/// IPv6. Their neighbours stay, and all of a class without a conditioner.
pub fn worked_places()
    ensures version_4 { map (may_change (record { place = by_version; conditioners = srtcm 1 1000 0 1 ∷ [] })
        (packet 0 1000 (v4 0x00 0x65f3) ∷ [])) (30 ∷ 31 ∷ 32 ∷ 39 ∷ 40 ∷ 41 ∷ 42 ∷ [])
        ≡ false ∷ true ∷ false ∷ false ∷ true ∷ true ∷ false ∷ [] }
    ensures version_6_behind_it { map (may_change (record { place = by_version; conditioners = srtcm 1 1000 0 1 ∷ srtcm 2 1000 0 1 ∷ [] })
        (packet 0 1000 (v4 0x00 0x65f3) ∷ packet 0 1000 (v6 0x03) ∷ [])) (87 ∷ 88 ∷ 89 ∷ 90 ∷ [])
        ≡ false ∷ true ∷ true ∷ false ∷ [] }
    ensures no_conditioner { map (may_change (record { place = by_version; conditioners = srtcm 2 1000 0 1 ∷ [] })
        (packet 0 1000 (v4 0x00 0x65f3) ∷ [])) (31 ∷ 40 ∷ 41 ∷ []) ≡ false ∷ false ∷ false ∷ [] }
    ensures frame_of_arp { map (may_change (record { place = by_version; conditioners = srtcm 1 1000 0 1 ∷ [] })
        (packet 0 1000 arp ∷ [])) (31 ∷ 40 ∷ 41 ∷ []) ≡ false ∷ false ∷ false ∷ [] }
{}
