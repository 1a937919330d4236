//! Worked examples, computed by the checker from the definitions.
ghost use Rattle.std.specs.Prelude.{◌≡◌, ◌∷◌, [], Some, true, false};
ghost use Rattle.flow_filter.specs.Matches.{matches};
ghost use Rattle.flow_filter.specs.Rows.{datagram, datagram_to, host_6, later_fragment, of_udp, over, ping, segment_to, to_4, to_5004, to_6, with_rest};
ghost use Rattle.flow_filter.specs.Rules.{every_4, every_6, filters_of_control};
ghost use Rattle.flow_filter.specs.Winner.{class_of};
ghost use Rattle.packet_heads.specs.Flow.{Other};

/// Worked examples of filters: what the definitions make of them.
pub fn worked_examples()
    ensures greater_ruleno_wins { class_of (with_rest (to_5004 1 0 ∷ of_udp 2 7 ∷ [])) (datagram 5004) ≡ 2 }
    ensures equal_ruleno_first_wins { class_of (with_rest (to_5004 1 7 ∷ of_udp 2 7 ∷ [])) (datagram 5004) ≡ 1 }
    ensures another_port { class_of (with_rest (to_5004 1 7 ∷ of_udp 2 7 ∷ [])) (datagram 5005) ≡ 2 }
    ensures arp_goes_to_default { class_of (with_rest (to_5004 1 0 ∷ of_udp 2 7 ∷ [])) Other ≡ 3 }
    ensures control_takes_icmp { class_of (with_rest (filters_of_control 1)) ping ≡ 1 }
    ensures filters_before_control { class_of (with_rest (over 2 0 every_4 ∷ filters_of_control 1)) ping ≡ 2 }
    ensures control_leaves_udp { class_of (with_rest (filters_of_control 1)) (datagram 5004) ≡ 3 }

    // A later fragment has no ports.
    ensures fragment_without_source_port { matches (record (over 1 0 every_4) { source_port = 1027 }) later_fragment ≡ false }
    ensures fragment_without_target_port { matches (to_5004 1 0) later_fragment ≡ false }
    ensures fragment_of_udp { matches (of_udp 1 0) later_fragment ≡ true }
    ensures source_port { matches (record (over 1 0 every_4) { source_port = 1027 }) (datagram 5004) ≡ true }
    ensures ports_exchanged { matches (record (over 1 0 every_4) { source_port = 5004 }) (datagram 5004) ≡ false }

    // 10.0.0.16 under 255.255.255.240, and a mask with a gap.
    ensures partial_byte_of_a_mask { matches (to_4 (10 ∷ 0 ∷ 0 ∷ 17 ∷ []) (255 ∷ 255 ∷ 255 ∷ 240 ∷ [])) (datagram_to (10 ∷ 0 ∷ 0 ∷ 31 ∷ []) (Some
        (1, 2))) ≡ true }
    ensures past_a_partial_byte { matches (to_4 (10 ∷ 0 ∷ 0 ∷ 17 ∷ []) (255 ∷ 255 ∷ 255 ∷ 240 ∷ [])) (datagram_to (10 ∷ 0 ∷ 0 ∷ 32 ∷ []) (Some
        (1, 2))) ≡ false }
    ensures mask_with_a_gap { matches (to_4 (10 ∷ 9 ∷ 0 ∷ 2 ∷ []) (255 ∷ 0 ∷ 255 ∷ 255 ∷ [])) (datagram 5004) ≡ true }
    ensures whole_mask { matches (to_4 (10 ∷ 0 ∷ 0 ∷ 3 ∷ []) (255 ∷ 255 ∷ 255 ∷ 255 ∷ [])) (datagram 5004) ≡ false }

    // Prefixes of 0, 31, 32 and 128 bits.
    ensures prefix_of_0 { matches (to_6 (host_6 0x0db8 2) 0) (segment_to (host_6 0xffff 9)) ≡ true }
    ensures prefix_of_31 { matches (to_6 (host_6 0x0db9 0) 31) (segment_to (host_6 0x0db8 2)) ≡ true }
    ensures prefix_of_32 { matches (to_6 (host_6 0x0db9 0) 32) (segment_to (host_6 0x0db8 2)) ≡ false }
    ensures prefix_of_128 { matches (to_6 (host_6 0x0db8 2) 128) (segment_to (host_6 0x0db8 2)) ≡ true }
    ensures another_last_bit { matches (to_6 (host_6 0x0db8 3) 128) (segment_to (host_6 0x0db8 2)) ≡ false }

    // Code point 10 under the upper six bits; 28 hex has the lower two clear.
    ensures type_of_service { matches (record (over 1 0 every_4) { tos = Some (0x28, 0xfc) }) (datagram 5004) ≡ true }
    ensures another_code_point { matches (record (over 1 0 every_4) { tos = Some (0x30, 0xfc) }) (datagram 5004) ≡ false }
    ensures filter_of_the_other_version { matches (over 1 0 every_6) (datagram 5004) ≡ false }
    ensures filter_of_version_4 { matches (over 1 0 every_4) (segment_to (host_6 0x0db8 2)) ≡ false }
{}
