// Worked paths, computed by the checker from the definitions.
ghost use Rattle.std.specs.Prelude.{◌≡◌, ◌∷◌, [], None, Some, codes};
ghost use Rattle.altq_model.specs.Rows.{many_packets, one_packet};
ghost use Rattle.play_chain.specs.Path.{passage};
ghost use Rattle.play_chain.specs.Rows.{first_link, kept, second_link, sent};
ghost use Rattle.play_chain.specs.Text.{path_text};

use crate::outcome::Outcome;
use altq_model::{Fate, Reason};

/// Worked examples: a packet of 1,000 bytes over 8 and then 4 Mbit/s; 51 packets of 100 bytes at once over 8 Mbit/s and then 800 kbit/s,
/// of which the first link drops the last; a packet that another overtakes on the first link, and that the second drops; and one whose
/// second fate is not known.
pub fn worked_paths()
    ensures one_packet_over_two_links { path_text (first_link 8000000 one_packet) (second_link 8000000 4000000 one_packet)
        ≡ codes "number,arrival,outcome,end\n1,5000000000,sent,5003000000\n" }
    ensures fiftieth_is_sent { passage (first_link 8000000 many_packets) (second_link 8000000 800000 many_packets) 50
        ≡ Some (record { arrival = 0; outcome = Outcome.Sent (Some 50100000) }) }
    ensures dropped_on_the_first_link { passage (first_link 8000000 many_packets) (second_link 8000000 800000 many_packets) 51
        ≡ Some (record { arrival = 0; outcome = Outcome.DroppedFirst }) }
    ensures overtaken { path_text (kept 2 7 (sent 7 9) ∷ kept 3 8 (Fate.Dropped Reason.Early) ∷ kept 1 5 (sent 9 12) ∷ [])
        ((2, Fate.Dropped Reason.Full) ∷ (1, sent 10 30) ∷ [])
        ≡ codes "number,arrival,outcome,end\n1,5,dropped2,\n2,7,sent,30\n3,8,dropped1,\n" }
    ensures not_known { path_text (kept 1 5 (sent 5 9) ∷ []) [] ≡ codes "number,arrival,outcome,end\n1,5,sent,\n" }
{}
