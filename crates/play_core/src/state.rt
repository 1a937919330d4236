// How far a play has come.
ghost use Rattle.std.specs.Prelude.{◌≤◌, ◌<◌, ◌*◌, ◌^◌};

use crate::Totals;
use leaf_queue::Pool;
use link_clock::LinkClock;

/// How far a play has come: the packets that wait, the clock of the link, the latest arrival that was offered, and the counts.
#[derive(Drop)]
pub struct Progress {
    pub(crate) clock: LinkClock,
    pub(crate) pool: Pool,
    pub(crate) latest: u64,
    pub(crate) totals: Totals,
    ghost least: { 1000 ≤ clock.rate },
    ghost in_time: { clock.link.free < 2 ^ 32 * 10 ^ 9 },
    ghost early: { latest < 2 ^ 62 },
}
