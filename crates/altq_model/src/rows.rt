// Worked examples, computed by the checker from the definitions.
ghost use Rattle.std.specs.Prelude.{◌≡◌, ◌∷◌, ◌++◌, [], take, drop, List, ℕ};
ghost use Rattle.capture_model.specs.Header.{capture_header};
ghost use Rattle.altq_model.specs.Policies.{one_queue};
ghost use Rattle.altq_model.specs.Rows.{journal_of, counts_in, departures_of, marking, one_packet, three_packets, many_packets, capable_packet};

use crate::{Counts, Fate, Reason, Rule};

/// Worked examples of one queue of 50 packets: what the definitions make of them.
pub fn worked_examples()
    ensures empty_capture { departures_of (one_queue 50) 8000000 [] ≡ capture_header }
    ensures one_departure { take 16 (drop 24 (departures_of (one_queue 50) 8000000 one_packet))
        ≡ 5 ∷ 0 ∷ 0 ∷ 0 ∷ 64 ∷ 66 ∷ 15 ∷ 0 ∷ 60 ∷ 0 ∷ 0 ∷ 0 ∷ 232 ∷ 3 ∷ 0 ∷ 0 ∷ [] }
    ensures fraction_is_carried_in_a_run { journal_of 3000000 three_packets
        ≡ (1, Fate.Sent 0 266667 Rule.Share) ∷ (2, Fate.Sent 266667 533334 Rule.Share)
        ∷ (3, Fate.Sent 533334 800000 Rule.Share) ∷ [] }
    ensures fifty_first_packet_is_dropped { take 2 (journal_of 8000000 many_packets)
        ≡ (51, Fate.Dropped Reason.Full) ∷ (1, Fate.Sent 0 100000 Rule.Share) ∷ [] }
    ensures marked_packet_leaves_dressed { drop 24 (departures_of marking 8000000 capable_packet)
        ≡ 0 ∷ 0 ∷ 0 ∷ 0 ∷ 64 ∷ 66 ∷ 15 ∷ 0 ∷ 4 ∷ 0 ∷ 0 ∷ 0 ∷ 232 ∷ 3 ∷ 0 ∷ 0 ∷ 69 ∷ 3 ∷ 0 ∷ 40 ∷ [] }
    ensures kept_packet_leaves_as_it_came { drop 40 (departures_of (one_queue 50) 8000000 capable_packet) ≡ 69 ∷ 2 ∷ 0 ∷ 40 ∷ [] }
    ensures full_queue_is_counted { counts_in 8000000 many_packets
        ≡ record { arrived = 51; arrived_bytes = 5100; raised = 0; sent = 50; sent_bytes = 5000; full = 1; early = 0; forced = 0 } }
{}
