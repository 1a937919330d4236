// The packets that are left: neither dropped by the rows, nor sent before a row.
ghost use Rattle.std.specs.Prelude.{◌≡◌, ◌≤◌, ◌<◌, ℕ, List, [], ◌∷◌, IfOk, get_or, length, true, false, vec_len};
ghost use Rattle.altq_model.specs.Lawful.{AreRising};
ghost use Rattle.fate_check.specs.declared.reading.Row.{Row};
ghost use Rattle.fate_judge.specs.Given.{bare_arrivals};
ghost use Rattle.fate_judge.specs.Tests.{IsNumbered};
ghost use Rattle.fate_judge.specs.Walk.{EachRow};
ghost use Rattle.fate_busy.specs.Busy.{AreDropped, IsLeft, StartsAtOnce};

use altq_model::Fate;
use fate_check::Row;
use fate_judge::Arrived;
use play_base::NoMemory;
use std::alloc::Global;

// By number less 1: whether rows so far drop it.
#[derive(Drop)]
struct Drops {
    gone: Vec<bool>,
}

impl Drops {
    // It is told of a row.
    fn tell(&mut self, row: &Row)
        requires from_one { 0 < row.now.number }
        requires there { row.now.number ≤ vec_len self.old.gone }
        ensures count { vec_len self.new.gone ≡ vec_len self.old.gone }
        ensures stands { (before : List Row) → AreDropped self.old.gone.items before → AreDropped self.new.gone.items (row.now ∷ before) }
    {
        if let Fate::Dropped(_) = row.fate {
            let place = row.number as usize - 1;
            self.gone[place] = true;
        }
    }
}

// By number less 1: whether the rows drop it.
fn drops_of(alloc: Global, count: usize, rows: &[Row]) -> Result<Vec<bool>, NoMemory>
    requires { EachRow (IsNumbered count) [] rows.now }
    ensures { IfOk result (λ gone. (vec_len gone ≡ count) × AreDropped gone.items rows.now) }
{
    let mut drops = Drops {
        gone: vec![in alloc; false; count]?,
    };
    for row in rows {
        drops.tell(row);
    }
    Ok(drops.gone)
}

// By number less 1: whether it is dropped by all rows or sent by those so far; a place up to which all are; and the last end.
#[derive(Drop)]
pub(crate) struct Left {
    gone: Vec<bool>,
    first: usize,
    free: u64,
}

impl Left {
    // Before the first row.
    pub(crate) fn new(alloc: Global, count: usize, rows: &[Row]) -> Result<Left, NoMemory>
        requires { EachRow (IsNumbered count) [] rows.now }
        ensures { IfOk result (λ left. IsLeft count rows.now [] left) }
    {
        Ok(Left {
            gone: drops_of(alloc, count, rows)?,
            first: 0,
            free: 0,
        })
    }

    // The first number, less 1, that is not gone.
    fn skip_gone(&mut self)
        ensures same { self.new.gone ≡ self.old.gone }
        ensures free { self.new.free ≡ self.old.free }
        ensures later { self.old.first ≤ self.new.first }
        ensures gone { (k : ℕ) → self.old.first ≤ k → k < self.new.first → get_or self.new.gone.items k false ≡ true }
        ensures stays { self.new.first < vec_len self.new.gone → get_or self.new.gone.items self.new.first false ≡ false }
    {
        while self.first < self.gone.len() && self.gone[self.first] {
            self.first += 1;
        }
    }

    // Whether a row passes the test; then it is told of the row.
    pub(crate) fn passes(&mut self, arrived: &[Arrived], row: &Row) -> bool
        requires from_one { 0 < row.now.number }
        requires there { row.now.number ≤ length arrived.now }
        requires rising { AreRising (bare_arrivals arrived.now) }
        requires count { vec_len self.old.gone ≡ length arrived.now }
        ensures count { vec_len self.new.gone ≡ vec_len self.old.gone }
        ensures passes { result ≡ true → (rows before : List Row) → IsLeft (length arrived.now) rows before self.old
            → StartsAtOnce (bare_arrivals arrived.now) rows before row.now }
        ensures stands { result ≡ true → (rows before : List Row) → IsLeft (length arrived.now) rows before self.old
            → IsLeft (length arrived.now) rows (row.now ∷ before) self.new }
        ensures fails { result ≡ false → (rows before : List Row) → IsLeft (length arrived.now) rows before self.old
            → ¬ StartsAtOnce (bare_arrivals arrived.now) rows before row.now }
    {
        let Fate::Sent { start, end, .. } = row.fate else {
            return true;
        };
        self.skip_gone();
        let Some(packet) = arrived.get(self.first) else {
            return false;
        };
        if start != packet.at.max(self.free) {
            return false;
        }
        let place = row.number as usize - 1;
        self.gone[place] = true;
        self.free = end;
        true
    }
}
