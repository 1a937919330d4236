//! The tests that given files are held to, by the numbers that a user reads.
#![tactic(auto)]

ghost use Rattle.std.specs.Prelude.{◌≡◌};
ghost use Rattle.file_tests.specs.Numbers.{test_number};

/// A test of given departures and fates against a configuration and its arrivals, the least first.
#[derive(Clone, Copy, Debug, PartialEq, Eq)]
pub enum Test {
    /// The fates are a head row and rows as a play writes them.
    Text,
    /// Number, arrival, length and class are those of a packet that arrived, and its fate can occur in its class.
    Reading,
    /// Each packet has one row. Where two rows have one packet, the later of them fails; where a packet has none, the row after the
    /// last one does.
    EachOnce,
    /// In each class the numbers of sendings rise, the numbers of drops rise, and starts do not fall; a drop stands after every
    /// sending that starts before its arrival, and before every other sending.
    Order,
    /// No start is before the packet's arrival or before the end of the sending before it.
    Moments,
    /// Each end is the link's, which carries the fraction of a nanosecond within a run.
    Ends,
    /// On an HFSC interface without upper limits the link never idles while a packet waits.
    Busy,
    /// The departures are the header of a capture and the record of each sending, with the bytes with which it leaves.
    Departures,
    /// Where the real-time curves fit the link, each packet of a leaf with such a curve ends at most the time of the longest packet,
    /// rounded up, after each moment that is due for it.
    Due,
}

impl Test {
    /// The number by which a status of code 10 and its message name it.
    pub fn number(self) -> u8
        ensures { result ≡ test_number self }
    {
        match self {
            Test::Text => 1,
            Test::Reading => 2,
            Test::EachOnce => 3,
            Test::Order => 4,
            Test::Moments => 5,
            Test::Ends => 6,
            Test::Busy => 7,
            Test::Departures => 8,
            Test::Due => 9,
        }
    }
}
