// What each file of a run is.
ghost use Rattle.std.specs.Prelude.{◌≡◌, ◌<◌};
ghost use Rattle.file_plans.specs.Parts.{part_number};

/// What a file of a run is. The counts of faults are kept by its number; what is printed is number 0.
#[derive(Clone, Copy, Debug, PartialEq, Eq)]
pub enum Part {
    Configuration,
    /// The arrivals, which `make` writes and then reads.
    Arrivals,
    /// The departures, which `chain` writes and then reads.
    Departures,
    Fates,
    Statistics,
    /// The marked arrivals of `condition`.
    Marked,
    /// The outputs of the second link of `chain`.
    SecondDepartures,
    SecondFates,
    SecondStatistics,
    /// What became of each packet of `chain`.
    Path,
}

impl Part {
    /// The number under which its file is opened or created.
    pub fn number(self) -> u8
        ensures value { result ≡ part_number self }
        ensures small { result < 16 }
    {
        match self {
            Part::Configuration => 1,
            Part::Arrivals => 2,
            Part::Departures => 3,
            Part::Fates => 4,
            Part::Statistics => 5,
            Part::Marked => 6,
            Part::SecondDepartures => 7,
            Part::SecondFates => 8,
            Part::SecondStatistics => 9,
            Part::Path => 10,
        }
    }
}
