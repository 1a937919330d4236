// Worked examples, computed by the checker from the definitions.
ghost use Rattle.std.specs.Prelude.{◌≡◌, ◌∷◌, ◌++◌, [], take, drop, false};
ghost use Rattle.capture_model.specs.Rows.{plain};
ghost use Rattle.pcapng_model.specs.Block.{told, Refuses, Tells, Passed, TooMany};
ghost use Rattle.pcapng_model.specs.Reading.{outcome};
ghost use Rattle.pcapng_model.specs.Rows.{words, put, section, interface, packet, counted, one_packet, ends_with, breaks_at, stamped_at, big_section, big_packet, three_bytes, short_packet, other_block};

use crate::NgKind;

/// Worked examples: files without a fault.
pub fn worked_pcapng()
    ensures pcapng_of_one_packet { outcome one_packet ≡ stamped_at 5000000000 }
    ensures section_alone { outcome section ≡ ends_with [] }
    ensures big_endian { outcome (big_section ++ big_packet) ≡ ends_with (three_bytes ∷ []) }
    ensures padded_by_three { outcome (section ++ interface 0x14000000 [] ++ short_packet 0x24000000 0x01000000 0x07ffffff)
        ≡ ends_with (record { stamp = 0; captured = 7 ∷ []; original = 64 } ∷ []) }
    ensures padded_by_two { outcome (section ++ interface 0x14000000 [] ++ short_packet 0x24000000 0x02000000 0x0708ffff)
        ≡ ends_with (record { stamp = 0; captured = 7 ∷ 8 ∷ []; original = 64 } ∷ []) }
    ensures nothing_captured { outcome (section ++ interface 0x14000000 [] ++ short_packet 0x24000000 0x00000000 0xffffffff)
        ≡ ends_with (record { stamp = 0; captured = []; original = 64 } ∷ []) }
    ensures others_are_passed_over { outcome (section ++ other_block ++ interface 0x14000000 [] ++ other_block
        ++ packet 0x00000000 0x404b4c00 ++ other_block) ≡ stamped_at 5000000000 }
    ensures other_link_without_packets { outcome (section ++ put 8 (words (0x65000000 ∷ [])) (interface 0x14000000 []))
        ≡ ends_with [] }
{}

/// Worked examples: sections, in which interfaces and the order of bytes begin anew.
pub fn worked_sections()
    ensures two_orders { outcome (one_packet ++ big_section ++ big_packet) ≡ ends_with (plain 5000000000 1000 ∷ three_bytes ∷ []) }
    ensures counted_anew { outcome (one_packet ++ section ++ packet 0x00000000 0x404b4c00)
        ≡ record { records = plain 5000000000 1000 ∷ []; last = (breaks_at 168 NgKind.UnknownInterface).last } }
    ensures other_section_other_order { (outcome (one_packet ++ big_section ++ interface 0x14000000 [])).last
        ≡ (breaks_at 168 NgKind.ShortBlock).last }
    ensures second_interface { outcome (section ++ put 8 (words (0x65000000 ∷ [])) (interface 0x14000000 []) ++ interface 0x14000000 []
        ++ put 8 (words (0x01000000 ∷ [])) (packet 0x00000000 0x404b4c00)) ≡ stamped_at 5000000000 }
{}

/// Worked examples: stamps by resolution and offset.
pub fn worked_stamps()
    ensures halves_of_a_count { outcome (counted 0x14000000 [] 0x01000000 0x00000000) ≡ stamped_at 4294967296000 }
    ensures milliseconds { outcome (counted 0x1c000000 (0x09000100 ∷ 0x03000000 ∷ []) 0x00000000 0x05000000) ≡ stamped_at 5000000 }
    ensures nanoseconds { outcome (counted 0x1c000000 (0x09000100 ∷ 0x09000000 ∷ []) 0x00000000 0x05000000) ≡ stamped_at 5 }
    ensures finest_by_ten { outcome (counted 0x1c000000 (0x09000100 ∷ 0x12000000 ∷ []) 0x00000000 0x00ca9a3b) ≡ stamped_at 1 }
    ensures rounded_down { outcome (counted 0x1c000000 (0x09000100 ∷ 0x12000000 ∷ []) 0x00000000 0xffc99a3b) ≡ stamped_at 0 }
    ensures too_fine_by_ten { outcome (counted 0x1c000000 (0x09000100 ∷ 0x13000000 ∷ []) 0x00000000 0x05000000)
        ≡ breaks_at 28 NgKind.BadResolution }
    ensures a_part_of_1024 { outcome (counted 0x1c000000 (0x09000100 ∷ 0x8a000000 ∷ []) 0x00000000 0x01000000) ≡ stamped_at 976562 }
    ensures finest_by_two { outcome (counted 0x1c000000 (0x09000100 ∷ 0xbf000000 ∷ []) 0xffffffff 0xffffffff) ≡ stamped_at 1999999999 }
    ensures too_fine_by_two { outcome (counted 0x1c000000 (0x09000100 ∷ 0xc0000000 ∷ []) 0x00000000 0x05000000)
        ≡ breaks_at 28 NgKind.BadResolution }
    ensures last_option_holds { outcome (counted 0x24000000 (0x09000100 ∷ 0x03000000 ∷ 0x09000100 ∷ 0x09000000 ∷ []) 0x00000000 0x05000000)
        ≡ stamped_at 5 }
    ensures first_is_replaced_too { outcome (counted 0x24000000 (0x09000100 ∷ 0x13000000 ∷ 0x09000100 ∷ 0x09000000 ∷ []) 0x00000000 0x05000000)
        ≡ stamped_at 5 }
    ensures bytes_behind_the_end { outcome (counted 0x24000000 (0x09000100 ∷ 0x09000000 ∷ 0x00000500 ∷ 0x0900ffff ∷ []) 0x00000000 0x05000000)
        ≡ stamped_at 5 }
    ensures offset_behind_others { outcome (counted 0x2c000000 (0x02000300 ∷ 0x65746800 ∷ 0x0e000800 ∷ 0x02000000 ∷ 0x00000000 ∷ 0x00000000 ∷ [])
        0x00000000 0x05000000) ≡ stamped_at 2000005000 }
    ensures a_second_earlier { outcome (counted 0x20000000 (0x0e000800 ∷ 0xffffffff ∷ 0xffffffff ∷ []) 0x00000000 0x40420f00) ≡ stamped_at 0 }
    ensures before_the_epoch { outcome (counted 0x20000000 (0x0e000800 ∷ 0xffffffff ∷ 0xffffffff ∷ []) 0x00000000 0x3f420f00)
        ≡ breaks_at 60 NgKind.BadStamp }
    ensures last_stamp { outcome (counted 0x1c000000 (0x09000100 ∷ 0x09000000 ∷ []) 0xffc99a3b 0xffffffff) ≡ stamped_at 4294967295999999999 }
    ensures past_the_last_stamp { outcome (counted 0x1c000000 (0x09000100 ∷ 0x09000000 ∷ []) 0x00ca9a3b 0x00000000)
        ≡ breaks_at 56 NgKind.BadStamp }
{}

/// Worked examples: the first fault of a file, and which of two at one block is told.
pub fn worked_faults()
    ensures cut_by_one_byte { outcome (take 139 one_packet) ≡ breaks_at 48 NgKind.ShortBlock }
    ensures eleven_bytes_stand { outcome (take 59 one_packet) ≡ breaks_at 48 NgKind.ShortBlock }
    ensures magic_before_total { outcome (put 4 (words (0xffffffff ∷ 0x00000000 ∷ [])) one_packet) ≡ breaks_at 0 NgKind.BadMagic }
    ensures magic_before_copy { outcome (put 24 (words (0x00000000 ∷ [])) (put 8 (words (0x00000000 ∷ [])) one_packet))
        ≡ breaks_at 0 NgKind.BadMagic }
    ensures copy_before_version { outcome (put 24 (words (0x00000000 ∷ [])) (put 12 (words (0x02000000 ∷ [])) one_packet))
        ≡ breaks_at 0 NgKind.BadBlock }
    ensures bad_version { outcome (put 12 (words (0x02000000 ∷ [])) one_packet) ≡ breaks_at 0 NgKind.BadVersion }
    ensures minor_is_not_looked_at { outcome (put 12 (words (0x0100ffff ∷ [])) one_packet) ≡ stamped_at 5000000000 }
    ensures short_section { outcome (words (0x0a0d0d0a ∷ 0x18000000 ∷ 0x4d3c2b1a ∷ 0x02000000 ∷ 0xffffffff ∷ 0x18000000 ∷ []))
        ≡ breaks_at 0 NgKind.BadBlock }
    ensures greatest_total { outcome (put 32 (words (0xffffffff ∷ [])) one_packet) ≡ breaks_at 28 NgKind.ShortBlock }
    ensures total_of_eight { outcome (section ++ words (0x0a000000 ∷ 0x08000000 ∷ 0x08000000 ∷ [])) ≡ breaks_at 28 NgKind.BadBlock }
    ensures total_of_thirteen { outcome (section ++ words (0x0a000000 ∷ 0x0d000000 ∷ 0xff0d0000 ∷ []) ++ 0 ∷ [])
        ≡ breaks_at 28 NgKind.BadBlock }
    ensures copy_in_its_last_byte { outcome (put 136 (words (0x5c000001 ∷ [])) one_packet) ≡ breaks_at 48 NgKind.BadBlock }
    ensures old_packet { outcome (put 28 (words (0x02000000 ∷ [])) one_packet) ≡ breaks_at 28 NgKind.OldPacket }
    ensures simple_packet { outcome (section ++ words (0x03000000 ∷ 0x0c000000 ∷ 0x0c000000 ∷ [])) ≡ breaks_at 28 NgKind.OldPacket }
    ensures copy_before_old_packet { outcome (put 44 (words (0x00000000 ∷ [])) (put 28 (words (0x03000000 ∷ [])) one_packet))
        ≡ breaks_at 28 NgKind.BadBlock }
{}

/// Worked examples: faults of interfaces.
pub fn worked_interface_faults()
    ensures short_interface { outcome (section ++ words (0x01000000 ∷ 0x10000000 ∷ 0x01000000 ∷ 0x10000000 ∷ []))
        ≡ breaks_at 28 NgKind.BadBlock }
    ensures option_past_the_body { outcome (counted 0x1c000000 (0x02000500 ∷ 0x00000000 ∷ []) 0x00000000 0x00000000)
        ≡ breaks_at 28 NgKind.BadBlock }
    ensures resolution_of_two_bytes { outcome (counted 0x1c000000 (0x09000200 ∷ 0x06000000 ∷ []) 0x00000000 0x00000000)
        ≡ breaks_at 28 NgKind.BadBlock }
    ensures offset_before_resolution { outcome (counted 0x24000000 (0x09000100 ∷ 0x13000000 ∷ 0x0e000400 ∷ 0x00000000 ∷ []) 0x00000000 0x00000000)
        ≡ breaks_at 28 NgKind.BadBlock }
{}

/// Worked examples: faults of packets.
pub fn worked_packet_faults()
    ensures unknown_interface { outcome (put 56 (words (0x01000000 ∷ [])) one_packet) ≡ breaks_at 48 NgKind.UnknownInterface }
    ensures interface_before_link { outcome (put 56 (words (0x01000000 ∷ [])) (put 36 (words (0x65000000 ∷ [])) one_packet))
        ≡ breaks_at 48 NgKind.UnknownInterface }
    ensures interface_before_length { outcome (put 72 (words (0x01000400 ∷ [])) (put 56 (words (0x01000000 ∷ [])) one_packet))
        ≡ breaks_at 48 NgKind.UnknownInterface }
    ensures other_link { outcome (put 36 (words (0x65000000 ∷ [])) one_packet) ≡ breaks_at 48 NgKind.BadLink }
    ensures link_before_length { outcome (put 72 (words (0x01000400 ∷ [])) (put 36 (words (0x65000000 ∷ [])) one_packet))
        ≡ breaks_at 48 NgKind.BadLink }
    ensures body_before_link { outcome (put 68 (words (0x01000400 ∷ [])) (put 36 (words (0x65000000 ∷ [])) one_packet))
        ≡ breaks_at 48 NgKind.BadBlock }
    ensures captured_to_the_end { outcome (section ++ interface 0x14000000 [] ++ short_packet 0x24000000 0x05000000 0x00000000)
        ≡ breaks_at 48 NgKind.BadBlock }
    ensures short_packet_block { outcome (section ++ words (0x06000000 ∷ 0x1c000000 ∷ 0 ∷ 0 ∷ 0 ∷ 0 ∷ 0x1c000000 ∷ []))
        ≡ breaks_at 28 NgKind.BadBlock }
    ensures longest { outcome (put 72 (words (0x00000400 ∷ [])) one_packet) ≡ ends_with (plain 5000000000 262144 ∷ []) }
    ensures too_long { outcome (put 72 (words (0x01000400 ∷ [])) one_packet) ≡ breaks_at 48 NgKind.LongRecord }
    ensures empty { outcome (section ++ interface 0x14000000 [] ++ put 24 (words (0x00000000 ∷ [])) (short_packet 0x24000000 0x00000000 0x00000000))
        ≡ breaks_at 48 NgKind.EmptyRecord }
    ensures length_before_stamp { outcome (put 84 (words (0x01000400 ∷ [])) (counted 0x20000000
        (0x0e000800 ∷ 0xffffffff ∷ 0xffffffff ∷ []) 0x00000000 0x3f420f00))
        ≡ breaks_at 60 NgKind.LongRecord }
    ensures empty_before_stamp { outcome (section ++ interface 0x20000000 (words (0x0e000800 ∷ 0xffffffff ∷ 0xffffffff ∷ []))
        ++ put 24 (words (0x00000000 ∷ [])) (short_packet 0x24000000 0x00000000 0x00000000)) ≡ breaks_at 60 NgKind.EmptyRecord }
{}

/// Worked examples: the limit of packets stands behind the tests of lengths and of old packets, and before the others.
pub fn worked_limits()
    ensures last_packet { told false 6 (take 80 (drop 8 (packet 0x00000000 0x404b4c00))) [] 3999999 ≡ Refuses NgKind.UnknownInterface }
    ensures one_too_many { told false 6 (take 80 (drop 8 (packet 0x00000000 0x404b4c00))) [] 4000000 ≡ TooMany }
    ensures lengths_before_limit { told false 6 (take 76 (drop 8 (packet 0x00000000 0x404b4c00))) [] 4000000 ≡ Refuses NgKind.BadBlock }
    ensures old_packet_before_limit { told false 3 [] [] 4000000 ≡ Refuses NgKind.OldPacket }
    ensures others_at_the_limit { told false 5 [] [] 4000000 ≡ Tells Passed }
{}
