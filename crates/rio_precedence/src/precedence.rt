// What a precedence, 0, 1 or 2, has of its own. The greater it is, the sooner its packets are dropped.
ghost use Rattle.std.specs.Prelude.{◌≡◌, ◌≤◌, ◌^◌};
ghost use Rattle.rio_precedence.specs.Precedence.{seen, thresholds_of};

use leaf_queue::Waiting;
use red_average::Thresholds;

/// One packet in the average.
const PACKET: u64 = 1 << 21;

// Each is 15 packets above those of the next worse precedence.
pub fn thresholds_of(prec: u8) -> Thresholds
    ensures value { result ≡ thresholds_of prec }
    ensures small { result.high ≤ 2 ^ 54 }
{
    match prec {
        0 => Thresholds {
            low: 35 * PACKET,
            high: 45 * PACKET,
        },
        1 => Thresholds {
            low: 20 * PACKET,
            high: 30 * PACKET,
        },
        _ => Thresholds {
            low: 5 * PACKET,
            high: 15 * PACKET,
        },
    }
}

// How many of the waiting packets are of this precedence or a better one.
pub fn seen(prec: u8, waiting: Waiting) -> u32
    ensures { result ≡ seen prec waiting }
{
    match prec {
        0 => waiting.best,
        1 => waiting.middle,
        _ => waiting.all,
    }
}
