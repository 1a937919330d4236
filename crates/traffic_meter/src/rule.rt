// What a meter is made of and what it answers.

/// The rates of a meter in bits per second, its bursts in bytes, and the class of assured forwarding, 1 to 4, whose code points
/// its colours give. A configuration keeps the rates at 1,000 to 10^12, `pir` at least `cir`, `cbs` and `pbs` at 1 to 2^30, and
/// `ebs` at 0 to 2^30; a meter has an answer for each value.
#[derive(Clone, Copy)]
pub enum MeterRule {
    /// One rate, the committed one, with a committed and an excess burst (RFC 2697).
    Single {
        cir: u64,
        cbs: u32,
        ebs: u32,
        af: u8,
    },
    /// A peak rate with its burst, and a committed rate with its burst (RFC 2698).
    Two {
        pir: u64,
        pbs: u32,
        cir: u64,
        cbs: u32,
        af: u8,
    },
}

/// The colour of a packet.
#[derive(Clone, Copy)]
pub enum Colour {
    /// It keeps to the committed rate and burst.
    Green,
    /// It exceeds those, and keeps to the excess burst, or to the peak rate and burst.
    Yellow,
    /// It exceeds these too.
    Red,
}
