// How the program is called.

use crate::line::line;
use std::alloc::{AllocError, Global};

/// The version of the program. CHANGELOG.md has what each brought.
pub const VERSION: &str = "0.3";

// The commands with their options, each on a line.
const COMMANDS: &str = concat!(
    "altqplay %: check --config FILE --interface NAME\n",
    "  bound --config FILE --interface NAME --longest L --burst B\n",
    "  play --config FILE --interface NAME --arrivals FILE --departures FILE --fates FILE --stats FILE --seed N\n",
    "  shares with the options of play\n",
    "  chain with the options of play and --next NAME --departures2 FILE --fates2 FILE --stats2 FILE --path FILE\n",
    "  make --count N and the options of play\n",
    "  verify --config FILE --interface NAME --arrivals FILE --departures FILE --fates FILE\n",
    "  condition --config FILE --interface NAME --arrivals FILE --marked FILE",
);

// The version, and the commands with their options.
pub(crate) fn usage(alloc: Global) -> Result<String, AllocError> {
    line(alloc, COMMANDS, "", VERSION.as_bytes(), &[])
}
