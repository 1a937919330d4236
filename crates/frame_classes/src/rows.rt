// Worked examples, computed by the checker from the definitions.
ghost use Rattle.std.specs.Prelude.{◌≡◌, true, false, take};
ghost use Rattle.frame_classes.specs.Handlings.{is_ecn};
ghost use Rattle.frame_classes.specs.Frames.{dressed_by, placed_by};
ghost use Rattle.frame_classes.specs.Rows.{datagram_to, three_classes};
ghost use Rattle.packet_heads.specs.Rows.{datagram, ethernet};

use conf_tree::DropRule;

/// Worked examples of places and departing bytes: what the definitions make of them.
pub fn worked_examples()
    // Code point 10, of low drop precedence, and 12, of medium, where the class does not mark.
    ensures low_drop_precedence { placed_by three_classes (datagram_to 0x28 5001) ≡ record { class = 2; prec = 0 } }
    ensures medium_drop_precedence { placed_by three_classes (datagram_to 0x30 5001) ≡ record { class = 2; prec = 1 } }
    ensures capable_where_none_marks { placed_by three_classes (datagram_to 0x02 5001) ≡ record { class = 2; prec = 0 } }

    // Where the class marks, the two low bits alone say the precedence: 00 is not capable.
    ensures not_capable { placed_by three_classes (datagram_to 0x28 5004) ≡ record { class = 1; prec = 0 } }
    ensures not_capable_of_medium_precedence { placed_by three_classes (datagram_to 0x30 5004) ≡ record { class = 1; prec = 0 } }
    ensures capable_by_01 { placed_by three_classes (datagram_to 0x39 5004) ≡ record { class = 1; prec = 1 } }
    ensures capable_by_10 { placed_by three_classes (datagram_to 0x2a 5004) ≡ record { class = 1; prec = 1 } }
    ensures met_congestion_before { placed_by three_classes (datagram_to 0x03 5004) ≡ record { class = 1; prec = 1 } }
    ensures no_flow { placed_by three_classes (take 33 (datagram_to 0x2a 5004)) ≡ record { class = 2; prec = 0 } }

    ensures code_point_is_cleared { dressed_by three_classes 2 false (ethernet (datagram 0x4528 0)) ≡ ethernet (datagram 0x4500 0x0028) }
    ensures checksum_follows_the_mark { dressed_by three_classes 1 true (ethernet (datagram 0x4502 0xb1e6)) ≡ ethernet (datagram 0x4503 0xb1e5) }
    ensures unmarked_stays { dressed_by three_classes 1 false (ethernet (datagram 0x4502 0xb1e6)) ≡ ethernet (datagram 0x4502 0xb1e6) }
    ensures other_rules_do_not_mark { is_ecn DropRule.Red ≡ false }
{}
