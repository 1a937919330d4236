// Starts that come neither before their packets nor before the link is free.
ghost use Rattle.std.specs.Prelude.{◌≡◌, ℕ, List, [], ◌∷◌, MatchOption, true, false};
ghost use Rattle.altq_model.specs.History.{Arrival};
ghost use Rattle.fate_check.specs.declared.reading.Row.{Row};
ghost use Rattle.fate_judge.specs.Given.{bare_arrivals};
ghost use Rattle.fate_judge.specs.Reading.{IsOfArrival, IsRead};
ghost use Rattle.fate_judge.specs.Tests.{IsFree, IsInTime};
ghost use Rattle.fate_judge.specs.Walk.{EachRow, FirstFails};
ghost use Rattle.fate_judge.specs.declared.given.Allowed.{Allowed};

use altq_model::Fate;
use fate_check::Row;

// The end of the newest sending, 0 where there is none.
#[derive(Drop)]
pub(crate) struct Free {
    pub(crate) end: u64,
}

impl Free {
    // Before the first row.
    pub(crate) fn new() -> Free
        ensures { IsFree [] result.end }
    {
        Free { end: 0 }
    }

    // Whether a row passes the test; then it is told of the row.
    pub(crate) fn passes(&mut self, row: &Row) -> bool
        ensures passes { result ≡ true → (classes : List Allowed) (arrived : List Arrival) (before : List Row) → IsOfArrival classes arrived row.now
            → IsFree before self.old.end → IsInTime arrived before row.now }
        ensures stands { result ≡ true → (before : List Row) → IsFree before self.old.end → IsFree (row.now ∷ before) self.new.end }
        ensures fails { result ≡ false → (classes : List Allowed) (arrived : List Arrival) (before : List Row) → IsOfArrival classes arrived row.now
            → IsFree before self.old.end → ¬ IsInTime arrived before row.now }
    {
        let Fate::Sent { start, end, .. } = row.fate else {
            return true;
        };
        if start < row.at || start < self.end {
            return false;
        }
        self.end = end;
        true
    }
}

// The first row that starts too early.
pub(crate) fn first_early(rows: &[Row]) -> Option<u64>
    ensures { (classes : List Allowed) (arrived : List Arrival) → EachRow (IsRead classes arrived) [] rows.now
        → MatchOption result (EachRow (IsInTime arrived) [] rows.now) (FirstFails (IsInTime arrived) rows.now) }
{
    let mut free = Free::new();
    for (i, row) in rows.iter().enumerate() {
        if !free.passes(row) {
            return Some(i as u64 + 1);
        }
    }
    None
}
