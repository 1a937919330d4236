// The packets of a capture as they arrive.
ghost use Rattle.std.specs.Prelude.{◌≡◌, ◌<◌, ◌^◌, ℕ, List};
ghost use Rattle.play_text.specs.Names.{HasClass};
ghost use Rattle.class_counts.specs.Counting.{AreCountable, count_at};
ghost use Rattle.pcap_files.specs.Reading.{told_of};
ghost use Rattle.play_loop.specs.Reading.{IsRead, ArrivalFits};

use altq_model::{Counts, Placed};
use class_counts::{Counted, count};
use discipline::Classify;
use pcap_files::Record;
use play_core::LentPacket;
use play_text::Names;

/// A packet that was read and not offered yet, and where it is placed. `raised` says that its own stamp is less than its arrival.
#[derive(Clone, Copy)]
pub struct Arriving<'a> {
    pub packet: LentPacket<'a>,
    pub placed: Placed,
    pub raised: bool,
}

/// The arrival of a record under this number, where this was the greatest stamp before it: placed by its bytes, and counted.
pub fn arrive<'a, C: Classify>(
    read: &Record<'a>,
    classify: &C,
    names: &Names,
    number: u64,
    latest: u64,
    counts: &mut Vec<Counts>,
) -> Arriving<'a>
    requires early { latest < 2 ^ 62 }
    requires countable { AreCountable names.now counts.old.items }
    requires named { (frame : List ℕ) → HasClass names.now (C.placed classify.now frame).class }
    ensures read { IsRead (told_of read.now) latest result }
    ensures number { result.packet.number ≡ number }
    ensures placed { result.placed ≡ C.placed classify.now result.packet.bytes.now }
    ensures within { ArrivalFits result }
    ensures counted { counts.new.items ≡ count_at names.now (C.placed classify.now result.packet.bytes.now).class
        (Counted.Arrived result.packet.len result.raised) counts.old.items }
{
    let placed = classify.class(read.bytes);
    let raised = read.stamp < latest;
    let len = read.len;
    let what = Counted::Arrived { len, raised };
    count(counts, names, placed.class, what);
    Arriving {
        packet: LentPacket {
            number,
            at: latest.max(read.stamp),
            len,
            bytes: read.bytes,
        },
        placed,
        raised,
    }
}
