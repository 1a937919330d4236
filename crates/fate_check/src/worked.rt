// Worked rows of fates, and what is none, told by the checker from the definitions.
ghost use Rattle.std.specs.Prelude.{◌≡◌, codes};
ghost use Rattle.fate_check.specs.Rows.{at_five_seconds, greatest, line, one_name};
ghost use Rattle.fate_check.specs.Text.{HasNoRow, IsRow, text_of};

/// Worked rows: what stands in a text of fates, and what does not.
pub fn worked_rows()
    ensures one_packet_at_five_seconds { text_of one_name at_five_seconds ≡ line (codes "1,5000000000,1000,default,share,5000000000,5001000000") }
    ensures greatest_numbers { text_of one_name greatest ≡ line (codes "18446744073709551615,18446744073709551615,4294967295,default,full,,") }
    ensures greatest_is_a_row { IsRow one_name greatest }
    ensures without_line_feed { HasNoRow one_name (codes "1,0,100,default,share,0,100000") }
    ensures number_past_its_type { HasNoRow one_name (line (codes "18446744073709551616,0,100,default,share,0,100000")) }
    ensures length_past_its_type { HasNoRow one_name (line (codes "1,0,4294967296,default,share,0,100000")) }
    ensures leading_zero { HasNoRow one_name (line (codes "01,0,100,default,share,0,100000")) }
    ensures sign { HasNoRow one_name (line (codes "+1,0,100,default,share,0,100000")) }
    ensures blank { HasNoRow one_name (line (codes "1, 0,100,default,share,0,100000")) }
    ensures other_class { HasNoRow one_name (line (codes "1,0,100,defaul,share,0,100000")) }
    ensures quotes { HasNoRow one_name (line (codes "1,0,100,\"default\",share,0,100000")) }
    ensures other_word { HasNoRow one_name (line (codes "1,0,100,default,shared,0,100000")) }
    ensures sending_without_end { HasNoRow one_name (line (codes "1,0,100,default,share,0,")) }
    ensures drop_with_start { HasNoRow one_name (line (codes "1,0,100,default,full,0,")) }
    ensures carriage_return { HasNoRow one_name (codes "1,0,100,default,share,0,100000\r\n") }
{}
