// Worked rows, computed by the checker from the definitions.
ghost use Rattle.std.specs.Prelude.{◌≡◌, [], codes};
ghost use Rattle.altq_model.specs.Rows.{one_packet};
ghost use Rattle.play_text.specs.Rows.{line, rows_of};

/// Worked examples of one queue of 50 packets: the rows of their fates.
pub fn worked_rows()
    ensures empty_fates { rows_of 8000000 [] ≡ [] }
    ensures one_packet_at_five_seconds { rows_of 8000000 one_packet
        ≡ line (codes "1,5000000000,1000,default,share,5000000000,5001000000") }
{}
