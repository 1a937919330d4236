// The type of service that its meter gives a packet.
ghost use Rattle.std.specs.Prelude.{◌≡◌, ◌≤◌, ◌∷◌, List};
ghost use Rattle.traffic_meter.specs.History.{Metered, Represents, after, colour_after, colour_of};
ghost use Rattle.traffic_meter.specs.Mark.{marked_tos};
ghost use Rattle.traffic_marks.specs.Marked.{assured_class};

use traffic_meter::{Meter, marked_tos};

// What the type of service of a packet becomes: its meter says the colour. Apart from `mark`, since its clauses speak of no frame.
pub fn metered_tos(meter: &mut Meter, af: u8, moment: u64, len: u32, tos: u8) -> u8
    requires in_order { meter.old.buckets.moment ≤ moment }
    requires class { af ≡ assured_class meter.old.rule }
    requires assured { af ≤ 4 }
    ensures tos { result ≡ marked_tos (assured_class meter.old.rule)
        (colour_of meter.old.rule meter.old.buckets (record { moment = moment; len = len })) tos }
    ensures history_tos { (h : List Metered) → Represents meter.old h → result ≡ marked_tos (assured_class meter.old.rule)
        (colour_after meter.old.rule h (record { moment = moment; len = len })) tos }
    ensures rule { meter.new.rule ≡ meter.old.rule }
    ensures buckets { meter.new.buckets ≡ after meter.old.rule meter.old.buckets (record { moment = moment; len = len }) }
    ensures moment { meter.new.buckets.moment ≡ moment }
    ensures history { (h : List Metered) → Represents meter.old h
        → Represents meter.new (record { moment = moment; len = len } ∷ h) }
{
    let colour = meter.colour(moment, len);
    marked_tos(af, colour, tos)
}
