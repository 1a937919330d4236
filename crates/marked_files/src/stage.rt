// Where in a capture the next byte stands.
use pcap_files::Head;

// What stands there: the head of the capture, its records, or bytes that no mark changes.
#[derive(Clone, Copy)]
pub enum Stage {
    Start,
    Records(Head),
    Rest,
}
