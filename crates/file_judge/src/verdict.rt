// Why files are not verified.
ghost use Rattle.std.specs.Prelude.{◌≡◌};

use file_tests::Test;
use play_base::NoMemory;

/// Why files are not verified.
#[derive(Clone, Copy, Debug, PartialEq, Eq)]
pub enum Unverified {
    /// The least test that fails, and its first row. Rows are counted from 1; the head row, and the header of the departures, is row 0.
    At { row: u64, test: Test },
    NoMemory,
}

impl From<NoMemory> for Unverified {
    ghost use Rattle.file_judge.specs.declared.verdict.Unverified.TheVariants.{NoMemory as none};

    ghost from_gives = { λ e r. r ≡ none };

    fn from(_: NoMemory) -> Unverified {
        Unverified::NoMemory
    }
}
