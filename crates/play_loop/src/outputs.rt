// The outputs of a play while it goes on.
ghost use Rattle.std.specs.Prelude.{◌≡◌, []};
ghost use Rattle.play_loop.specs.Outputs.{AreOpened, output_fault};

use crate::spare::Spare;
use crate::{Opened, Output, PlayFault};
use altq_model::Counts;
use play_base::Trouble;
use play_core::Totals;
use play_text::Rows;
use std::alloc::Global;

/// The numbers of departures and fates, the bytes that are gathered for each, the counts so far of each class of the names, and memory
/// of packets that left the play.
#[derive(Drop)]
pub struct Outputs {
    pub departures: u32,
    pub fates: u32,
    pub records: Vec<u8>,
    pub rows: Rows,
    pub counts: Vec<Counts>,
    pub spare: Spare,
}

impl Outputs {
    // Nothing is gathered yet. Does not allocate.
    pub fn new(alloc: Global, opened: &Opened<'_>, counts: Vec<Counts>) -> Outputs
        ensures files { AreOpened result opened.now }
        ensures records { result.records.items ≡ [] }
        ensures rows { result.rows ≡ [] }
        ensures counts { result.counts.items ≡ counts.items }
    {
        Outputs {
            departures: opened.departures,
            fates: opened.fates,
            records: Vec::new(alloc),
            rows: Rows::new(alloc),
            counts,
            spare: Spare::new(alloc),
        }
    }

    // The counts alone.
    pub fn into_counts(self) -> Vec<Counts>
        ensures { result ≡ self.counts }
    {
        self.counts
    }
}

/// The counts of a whole play: of all packets, and of each class at the place of its name.
#[derive(Drop)]
pub struct Tally {
    pub totals: Totals,
    pub counts: Vec<Counts>,
}

/// What trouble with an output, when it is created or written, means for the play.
pub fn output_fault(output: Output, trouble: Trouble) -> PlayFault
    ensures { result ≡ output_fault output trouble }
{
    match trouble {
        Trouble::Failed => PlayFault::Write(output),
        Trouble::NoMemory => PlayFault::NoMemory,
    }
}
