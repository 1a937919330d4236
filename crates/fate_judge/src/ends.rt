// Ends as the link's.
ghost use Rattle.std.specs.Prelude.{◌≡◌, ◌≢◌, ◌≤◌, ◌<◌, ◌*◌, ◌+◌, ◌^◌, ℕ, List, [], ◌∷◌, MatchOption, true, false};
ghost use Rattle.altq_model.specs.History.{Arrival};
ghost use Rattle.altq_model.specs.Link.{after_sending};
ghost use Rattle.fate_check.specs.declared.reading.Row.{Row};
ghost use Rattle.fate_judge.specs.Ends.{HasEnd, IsLink, link_of};
ghost use Rattle.fate_judge.specs.Reading.{IsOfArrival, IsRead};
ghost use Rattle.fate_judge.specs.Walk.{EachRow, FirstFails};
ghost use Rattle.fate_judge.specs.declared.given.Allowed.{Allowed};
ghost use Rattle.play_base.specs.Units.{ceil_div, units};

use altq_model::Fate;
use fate_check::Row;

// The units of a byte: a rate of R bits per second carries R·t units in t nanoseconds.
const BYTE: u128 = 8_000_000_000;

// The last end; and of the run that it belongs to, the start and the units so far.
#[derive(Clone, Copy)]
pub(crate) struct Run {
    pub(crate) free: u64,
    pub(crate) start: u64,
    pub(crate) sent: u128,
}

// Whether `sent` units take a link of `rate` units a nanosecond this time, rounded up to a nanosecond.
fn takes(rate: u64, sent: u128, time: u64) -> bool
    requires some { 0 < rate }
    requires most { rate ≤ 10 ^ 12 }
    requires few { sent ≤ 2 ^ 127 }
    ensures yes { result ≡ true → ceil_div sent rate ≡ time }
    ensures no { result ≡ false → ceil_div sent rate ≢ time }
{
    let rate = u128::from(rate);
    let most = u128::from(time) * rate;
    sent <= most && most < sent + rate
}

impl Run {
    // Before the first row.
    pub(crate) fn new() -> Run
        ensures none { result.sent ≡ 0 }
        ensures link { (rate : ℕ) (arrived : List Arrival) → IsLink rate arrived [] result }
    {
        Run {
            free: 0,
            start: 0,
            sent: 0,
        }
    }

    // The start and the units of the run to which a packet belongs that starts at `start`.
    fn after(self, start: u64, len: u32) -> (u64, u128)
        requires { self.sent ≤ 2 ^ 127 }
        ensures start { (rate : ℕ) → result.0 ≡ (after_sending rate (link_of self) start len).run }
        ensures sent { (rate : ℕ) → result.1 ≡ (after_sending rate (link_of self) start len).sent }
        ensures end { (rate : ℕ) → (after_sending rate (link_of self) start len).free ≡ result.0 + ceil_div result.1 rate }
        ensures few { result.1 ≤ self.sent + units len }
    {
        let more = u128::from(len) * BYTE;
        if start == self.free {
            (self.start, self.sent + more)
        } else {
            (start, more)
        }
    }

    // Whether a row passes the test; then it is told of the row.
    pub(crate) fn passes(&mut self, rate: u64, row: &Row) -> bool
        requires some { 0 < rate }
        requires most { rate ≤ 10 ^ 12 }
        requires few { self.old.sent ≤ rate * 2 ^ 64 }
        ensures few { result ≡ true → self.new.sent ≤ rate * 2 ^ 64 }
        ensures passes { result ≡ true → (classes : List Allowed) (arrived : List Arrival) (before : List Row) → IsOfArrival classes arrived row.now
            → IsLink rate arrived before self.old → HasEnd rate arrived before row.now }
        ensures stands { result ≡ true → (classes : List Allowed) (arrived : List Arrival) (before : List Row) → IsOfArrival classes arrived row.now
            → IsLink rate arrived before self.old → IsLink rate arrived (row.now ∷ before) self.new }
        ensures fails { result ≡ false → (classes : List Allowed) (arrived : List Arrival) (before : List Row) → IsOfArrival classes arrived row.now
            → IsLink rate arrived before self.old → ¬ HasEnd rate arrived before row.now }
    {
        let Fate::Sent { start, end, .. } = row.fate else {
            return true;
        };
        let (run, sent) = self.after(start, row.len);
        let Some(time) = end.checked_sub(run) else {
            return false;
        };
        if !takes(rate, sent, time) {
            return false;
        }
        *self = Run {
            free: end,
            start: run,
            sent,
        };
        true
    }
}

// The first row whose end is not the link's.
pub(crate) fn first_other_end(rate: u64, rows: &[Row]) -> Option<u64>
    requires some { 0 < rate }
    requires most { rate ≤ 10 ^ 12 }
    ensures { (classes : List Allowed) (arrived : List Arrival) → EachRow (IsRead classes arrived) [] rows.now
        → MatchOption result (EachRow (HasEnd rate arrived) [] rows.now) (FirstFails (HasEnd rate arrived) rows.now) }
{
    let mut run = Run::new();
    for (i, row) in rows.iter().enumerate() {
        if !run.passes(rate, row) {
            return Some(i as u64 + 1);
        }
    }
    None
}
