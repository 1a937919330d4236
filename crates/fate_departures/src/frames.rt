// The captured bytes of the packets that arrived.
ghost use Rattle.std.specs.Prelude.{◌≡◌, ◌<◌, ◌-◌, ◌^◌, length};
ghost use Rattle.fate_departures.specs.Frames.{frame_of, frames_in, is_markable};

use fate_judge::Arrived;
use input_files::Records;

/// Packets as they arrived, and their records.
#[derive(Clone, Copy)]
pub struct Frames<'a> {
    pub arrived: &'a [Arrived],
    /// The records of all packets, in the order of number.
    pub records: &'a Records,
    /// By class: whether its queue marks packets in place of early drops.
    pub marks: &'a [bool],
}

impl Frames<'_> {
    // The place of a number in a list: numbers count from 1.
    fn index(number: u64) -> usize
        ensures { result ≡ number - 1 }
    {
        number.saturating_sub(1) as usize
    }

    /// The captured bytes of the packet of a number; none where there is no such packet.
    pub(crate) fn frame(&self, number: u64) -> &[u8]
        ensures value { result.now ≡ frame_of (frames_in self.now) number }
        ensures short { length result.now < 2 ^ 32 }
    {
        match self.records.get(Self::index(number)) {
            Some(found) => found.bytes,
            None => &[],
        }
    }

    /// Whether the packet of a number may have been marked in a class: its transport is capable of marks, and the queue marks.
    pub(crate) fn is_markable(&self, number: u64, class: u32) -> bool
        ensures { result ≡ is_markable (frames_in self.now) number class }
    {
        let marks = match self.marks.get(class as usize) {
            Some(marks) => *marks,
            None => false,
        };
        let prec = match self.arrived.get(Self::index(number)) {
            Some(packet) => packet.prec,
            None => 0,
        };
        marks && prec == 1
    }
}
