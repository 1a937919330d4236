// The summary of a play.
ghost use Rattle.std.specs.Prelude.{◌≡◌, IfOk, string_bytes};
ghost use Rattle.play_text.specs.Summary.{summary_text};

use std::alloc::{AllocError, Global};

/// The line that `make` says of its play: `packets N sent S dropped D end E` and a line feed, with how many packets there were, how
/// many were sent and dropped, and the last end in nanoseconds. The only error is want of memory. Costs the length of the text.
pub fn summary_text(
    alloc: Global,
    packets: u64,
    sent: u64,
    dropped: u64,
    end: u64,
) -> Result<String, AllocError>
    ensures { IfOk result (λ text. string_bytes text ≡ summary_text packets sent dropped end) }
{
    format!(in alloc; "packets {packets} sent {sent} dropped {dropped} end {end}\n")
}
