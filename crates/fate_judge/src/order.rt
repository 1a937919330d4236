// The order of sendings and drops.
ghost use Rattle.std.specs.Prelude.{◌≡◌, ◌<◌, ℕ, List, [], ◌∷◌, IfOk, MatchOption, true, false, vec_len};
ghost use Rattle.altq_model.specs.History.{Arrival};
ghost use Rattle.fate_check.specs.declared.reading.Row.{Row};
ghost use Rattle.fate_judge.specs.Order.{RowIsInOrder, IsOrder};
ghost use Rattle.fate_judge.specs.Reading.{HasClass, IsOfArrival, IsRead};
ghost use Rattle.fate_judge.specs.Walk.{EachRow, FirstFails};
ghost use Rattle.fate_judge.specs.declared.given.Allowed.{Allowed};

use altq_model::Fate;
use fate_check::Row;
use play_base::NoMemory;
use std::alloc::Global;

// The least number above all that a class sent, by class; above all starts; above all numbers that were dropped, and above their
// arrivals.
#[derive(Drop)]
pub(crate) struct Order {
    pub(crate) sent: Vec<u128>,
    pub(crate) start: u128,
    pub(crate) drop: u128,
    pub(crate) moment: u128,
}

impl Order {
    // Before the first row.
    pub(crate) fn new(alloc: Global, count: usize) -> Result<Order, NoMemory>
        ensures count { IfOk result (λ order. vec_len order.sent ≡ count) }
        ensures none { IfOk result (λ order. (arrived : List Arrival) → IsOrder arrived [] order.sent.items order.start order.drop order.moment) }
    {
        Ok(Order {
            sent: vec![in alloc; 0; count]?,
            start: 0,
            drop: 0,
            moment: 0,
        })
    }

    // Whether a row passes the test; then it is told of the row.
    pub(crate) fn passes(&mut self, row: &Row) -> bool
        requires class { row.now.class < vec_len self.old.sent }
        ensures count { vec_len self.new.sent ≡ vec_len self.old.sent }
        ensures passes { result ≡ true → (classes : List Allowed) (arrived : List Arrival) (before : List Row) → IsOfArrival classes arrived row.now
            → IsOrder arrived before self.old.sent.items self.old.start self.old.drop self.old.moment → RowIsInOrder arrived before row.now }
        ensures stands { result ≡ true → (classes : List Allowed) (arrived : List Arrival) (before : List Row) → IsOfArrival classes arrived row.now
            → IsOrder arrived before self.old.sent.items self.old.start self.old.drop self.old.moment
            → IsOrder arrived (row.now ∷ before) self.new.sent.items self.new.start self.new.drop self.new.moment }
        ensures fails { result ≡ false → (classes : List Allowed) (arrived : List Arrival) (before : List Row) → IsOfArrival classes arrived row.now
            → IsOrder arrived before self.old.sent.items self.old.start self.old.drop self.old.moment → ¬ RowIsInOrder arrived before row.now }
    {
        let number = u128::from(row.number);
        let above = number + 1;
        match row.fate {
            Fate::Sent { start, .. } => {
                let class = row.class as usize;
                let after = u128::from(start) + 1;
                if self.sent[class] > number || self.start > after || self.moment > after {
                    return false;
                }
                self.sent[class] = above;
                self.start = after;
                true
            }
            Fate::Dropped(_) => {
                let at = u128::from(row.at);
                if self.drop > number || self.start > at {
                    return false;
                }
                self.drop = above;
                self.moment = self.moment.max(at + 1);
                true
            }
        }
    }
}

// The first row that is out of order.
pub(crate) fn first_out_of_order(
    alloc: Global,
    count: usize,
    rows: &[Row],
) -> Result<Option<u64>, NoMemory>
    requires { EachRow (HasClass count) [] rows.now }
    ensures { (classes : List Allowed) (arrived : List Arrival) → EachRow (IsRead classes arrived) [] rows.now
        → IfOk result (λ o. MatchOption o (EachRow (RowIsInOrder arrived) [] rows.now) (FirstFails (RowIsInOrder arrived) rows.now)) }
{
    let mut order = Order::new(alloc, count)?;
    for (i, row) in rows.iter().enumerate() {
        if !order.passes(row) {
            return Ok(Some(i as u64 + 1));
        }
    }
    Ok(None)
}
