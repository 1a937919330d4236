// The moving average of the packets that wait, in packets times 2^21.
ghost use Rattle.std.specs.Prelude.{◌≡◌, ◌≤◌, ◌^◌};
ghost use Rattle.play_base.specs.Units.{time_of};
ghost use Rattle.red_average.specs.Average.{idled, moved};

use play_base::time_of;

/// A typical packet, in bytes: while nothing waits, the average takes one step in the time of each.
const TYPICAL_PACKET: u64 = 1000;

/// One divided by the weight of the newest number in the average.
const INVERSE_WEIGHT: u64 = 512;

/// What one waiting packet adds in a step: 2^21 divided by 512.
const WEIGHT_OF_A_PACKET: u64 = 4096;

/// The time of a step while nothing waits, in nanoseconds: that of 1,000 bytes on a link of `rate` bits per second, rounded up.
/// Constant time.
pub fn idle_step(rate: u64) -> u64
    requires { 1000 ≤ rate }
    ensures value { result ≡ time_of 1000 rate }
    ensures some { 1 ≤ result }
{
    time_of(TYPICAL_PACKET, rate)
}

/// After 16,250 idle steps even the greatest average, 2^54, is below 512, where a step changes nothing.
const MOST_IDLE_STEPS: u64 = 16_250;

// The average after `steps` steps with nothing waiting. At most 16,250 are taken, and fewer where the average moves no more.
fn idled(average: u64, steps: u64) -> u64
    requires { average ≤ 2 ^ 54 }
    ensures value { result ≡ idled steps average }
    ensures most { result ≤ average }
{
    let mut left = steps.min(MOST_IDLE_STEPS);
    let mut aged = average;
    while left > 0 && aged >= INVERSE_WEIGHT {
        aged -= aged / INVERSE_WEIGHT;
        left -= 1;
    }
    aged
}

/// The average after an arrival at `now`, in nanoseconds, that finds `waiting` packets. Where none waits, nothing has waited since
/// `idle`, and the average takes one step for each whole `step` nanoseconds since then: none if `now` is before `idle`. It
/// takes at most 16,250 of them, since an average below 512 moves no more; so its time does not grow with the idle time.
pub fn moved(average: u64, step: u64, idle: u64, now: u64, waiting: u32) -> u64
    requires average { average ≤ 2 ^ 54 }
    requires step { 1 ≤ step }
    ensures value { result ≡ moved step idle now waiting average }
    ensures most { result ≤ 2 ^ 54 }
{
    if waiting == 0 {
        return idled(average, now.saturating_sub(idle) / step);
    }
    average + WEIGHT_OF_A_PACKET * u64::from(waiting) - average / INVERSE_WEIGHT
}
