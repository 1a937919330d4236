// Why inputs stop a command.
use conf_lines::ConfPlace;
use pcapng_model::NgPlace;

/// Why inputs stop a command, in the order of the tests.
#[derive(Clone, Copy)]
pub enum Stop {
    /// There is no configuration of that name.
    NoConfiguration,
    /// The configuration has more than 2^20 bytes.
    LongConfiguration,
    /// The configuration is refused at this place or, at line 0, lacks an interface.
    Refused(ConfPlace),
    /// There are no arrivals of that name.
    NoArrivals,
    /// The arrivals begin as a pcapng file, of which this block is the first that fails a test.
    NoPcapng(NgPlace),
    /// The arrivals begin as a pcapng file that is too long.
    LongPcapng,
}
