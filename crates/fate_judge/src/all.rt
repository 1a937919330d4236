// All tests in one pass.
ghost use Rattle.std.specs.Prelude.{◌≡◌, ◌≤◌, ◌<◌, ◌^◌, ℕ, List, [], ◌∷◌, IfOk, length, true};
ghost use Rattle.altq_model.specs.History.{Arrival};
ghost use Rattle.fate_check.specs.declared.reading.Row.{Row};
ghost use Rattle.fate_judge.specs.All.{AreTold, HaveRoom, PassesEach};
ghost use Rattle.fate_judge.specs.Given.{bare_arrivals};
ghost use Rattle.fate_judge.specs.Judged.{PassesAll};

use crate::ends::Run;
use crate::given::{Allowed, Arrived};
use crate::moments::Free;
use crate::once::{Seen, first_unset};
use crate::order::Order;
use crate::reading::is_of_arrival;
use fate_check::Row;
use play_base::NoMemory;
use std::alloc::Global;

// What the tests hold of the rows so far.
#[derive(Drop)]
struct AllTests {
    seen: Seen,
    order: Order,
    free: Free,
    run: Run,
}

impl AllTests {
    // Before the first row.
    fn new(alloc: Global, numbers: usize, classes: usize) -> Result<AllTests, NoMemory>
        ensures room { IfOk result (λ tests. (rate : ℕ) → HaveRoom rate numbers classes tests) }
        ensures told { IfOk result (λ tests. (rate : ℕ) (arrived : List Arrival) → AreTold rate arrived [] tests) }
    {
        Ok(AllTests {
            seen: Seen::new(alloc, numbers)?,
            order: Order::new(alloc, classes)?,
            free: Free::new(),
            run: Run::new(),
        })
    }

    // Whether a row passes each test; then they are told of the row.
    fn passes(&mut self, rate: u64, classes: &[Allowed], arrived: &[Arrived], row: &Row) -> bool
        requires some { 0 < rate }
        requires most { rate ≤ 10 ^ 12 }
        requires room { HaveRoom rate (length arrived.now) (length classes.now) self.old }
        ensures room { result ≡ true → HaveRoom rate (length arrived.now) (length classes.now) self.new }
        ensures passes { result ≡ true → (before : List Row) → AreTold rate (bare_arrivals arrived.now) before self.old
            → PassesEach rate classes.now (bare_arrivals arrived.now) before row.now }
        ensures stands { result ≡ true → (before : List Row) → AreTold rate (bare_arrivals arrived.now) before self.old
            → AreTold rate (bare_arrivals arrived.now) (row.now ∷ before) self.new }
    {
        if !is_of_arrival(classes, arrived, row) {
            return false;
        }
        if !self.seen.passes(row) {
            return false;
        }
        if !self.order.passes(row) {
            return false;
        }
        if !self.free.passes(row) {
            return false;
        }
        self.run.passes(rate, row)
    }
}

// Whether the rows pass all tests: true only where they do.
pub(crate) fn all_pass(
    alloc: Global,
    rate: u64,
    classes: &[Allowed],
    arrived: &[Arrived],
    rows: &[Row],
) -> Result<bool, NoMemory>
    requires some { 0 < rate }
    requires most { rate ≤ 10 ^ 12 }
    ensures { IfOk result (λ all. all ≡ true → PassesAll (record {
      rate = rate;
      classes = classes.now;
      arrived = bare_arrivals arrived.now;
      rows = rows.now;
    })) }
{
    let mut tests = AllTests::new(alloc, arrived.len(), classes.len())?;
    for row in rows {
        if !tests.passes(rate, classes, arrived, row) {
            return Ok(false);
        }
    }
    Ok(first_unset(&tests.seen.numbers, 0) == arrived.len())
}
