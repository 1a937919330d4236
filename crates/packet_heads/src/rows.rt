// Worked examples, computed by the checker from the definitions.
ghost use Rattle.std.specs.Prelude.{◌≡◌, ◌∷◌, [], true, false, map, take, replicate};
ghost use Rattle.packet_heads.specs.Departing.{departing};
ghost use Rattle.packet_heads.specs.Flow.{flow, Other};
ghost use Rattle.packet_heads.specs.Points.{code_point, precedence_of};
ghost use Rattle.packet_heads.specs.Retagged.{checksum_after, retagged};
ghost use Rattle.packet_heads.specs.Rows.{datagram, datagram_flow, datagram_with_options, ethernet, segment, segment_flow};

/// Worked examples of flows, and of what is left of a frame that is given another type of service: what the definitions
/// make of them.
pub fn worked_examples()
    ensures flow_of_a_generated_frame { flow (ethernet (datagram 0x4528 0)) ≡ datagram_flow 0x28 (Some (1027, 5001)) }
    ensures ports_behind_options { flow (ethernet (datagram_with_options 0)) ≡ datagram_flow 0x28 (Some (1027, 5001)) }
    ensures version_5_is_other { flow (ethernet (datagram 0x5528 0)) ≡ Other }
    ensures four_words_are_no_head { flow (ethernet (datagram 0x4428 0)) ≡ Other }
    ensures cut_in_its_head { flow (take 33 (ethernet (datagram 0x4528 0))) ≡ Other }
    ensures cut_in_its_ports { flow (take 37 (ethernet (datagram 0x4528 0))) ≡ datagram_flow 0x28 None }
    ensures flow_over_ipv6 { flow (ethernet (segment 0x630a)) ≡ segment_flow 0x30 }
    ensures version_4_in_ipv6_is_other { flow (ethernet (segment 0x430a)) ≡ Other }

    // Code points of RFC 2597 and their neighbours.
    ensures class_1 { map precedence_of (8 ∷ 9 ∷ 10 ∷ 11 ∷ 12 ∷ 13 ∷ 14 ∷ 15 ∷ 16 ∷ []) ≡ 0 ∷ 0 ∷ 0 ∷ 0 ∷ 1 ∷ 0 ∷ 2 ∷ 0 ∷ 0 ∷ [] }
    ensures classes_2_and_3 { map precedence_of (18 ∷ 20 ∷ 22 ∷ 26 ∷ 28 ∷ 30 ∷ []) ≡ 0 ∷ 1 ∷ 2 ∷ 0 ∷ 1 ∷ 2 ∷ [] }
    ensures class_4 { map precedence_of (34 ∷ 36 ∷ 38 ∷ 40 ∷ 42 ∷ 44 ∷ 46 ∷ []) ≡ 0 ∷ 1 ∷ 2 ∷ 0 ∷ 0 ∷ 0 ∷ 0 ∷ [] }
    ensures no_class { map precedence_of (0 ∷ 2 ∷ 4 ∷ 6 ∷ 63 ∷ []) ≡ 0 ∷ 0 ∷ 0 ∷ 0 ∷ 0 ∷ [] }
    ensures upper_six_bits { map code_point (0x27 ∷ 0x28 ∷ 0x2b ∷ 0x2c ∷ 0xff ∷ []) ≡ 9 ∷ 10 ∷ 10 ∷ 11 ∷ 63 ∷ [] }

    // The example of RFC 1624, section 4.
    ensures checksum_of_zero { checksum_after 0xdd2f 0x5555 0x3285 ≡ 0x0000 }
    ensures code_point_is_cleared { departing true false (ethernet (datagram 0x4528 0)) ≡ ethernet (datagram 0x4500 0x0028) }
    ensures checksum_follows_the_mark { departing false true (ethernet (datagram 0x4502 0xb1e6)) ≡ ethernet (datagram 0x4503 0xb1e5) }
    ensures cleared_and_marked { departing true true (ethernet (datagram 0x452a 0xb1be)) ≡ ethernet (datagram 0x4503 0xb1e5) }
    ensures neither_cleared_nor_marked { departing false false (ethernet (datagram 0x452a 0xb1be)) ≡ ethernet (datagram 0x452a 0xb1be) }
    ensures zero_is_written_as_zero { retagged (ethernet (datagram 0x4500 0x0002)) 0x02 ≡ ethernet (datagram 0x4502 0x0000) }
    ensures ones_are_read_as_zero { retagged (ethernet (datagram 0x4500 0xffff)) 0x01 ≡ ethernet (datagram 0x4501 0xfffe) }
    ensures ones_stay_where_nothing_changes { retagged (ethernet (datagram 0x4500 0xffff)) 0x00 ≡ ethernet (datagram 0x4500 0xffff) }
    ensures behind_two_tags { retagged (ethernet (0x8100 ∷ 0x0001 ∷ 0x88a8 ∷ 0x0002 ∷ datagram 0x4528 0)) 0x00
        ≡ ethernet (0x8100 ∷ 0x0001 ∷ 0x88a8 ∷ 0x0002 ∷ datagram 0x4500 0x0028) }
    ensures behind_three_tags { retagged (ethernet (0x8100 ∷ 1 ∷ 0x8100 ∷ 2 ∷ 0x8100 ∷ 3 ∷ datagram 0x4528 0)) 0x00
        ≡ ethernet (0x8100 ∷ 1 ∷ 0x8100 ∷ 2 ∷ 0x8100 ∷ 3 ∷ datagram 0x4528 0) }
    ensures over_two_bytes { retagged (ethernet (segment 0x630a)) 0xb8 ≡ ethernet (segment 0x6b8a) }
    ensures traffic_class_marked { departing false true (ethernet (segment 0x602f)) ≡ ethernet (segment 0x603f) }
    ensures too_short { departing true true (take 33 (ethernet (datagram 0x4528 0))) ≡ take 33 (ethernet (datagram 0x4528 0)) }
    ensures no_type { retagged (replicate 13 1) 0xff ≡ replicate 13 1 }
{}
