// What is held of all classes.
ghost use Rattle.std.specs.Prelude.{◌≡◌, ◌<◌, ◌≤◌, ◌+◌, ◌^◌, ◌∷◌, [], ℕ, List, Option, IfOk, IfSome, true, false};
ghost use Rattle.play_base.specs.Units.{ceil_div, units};
ghost use Rattle.service_curve.specs.declared.Curve.{Curve};
ghost use Rattle.fate_check.specs.declared.reading.Row.{Row};
ghost use Rattle.fate_timely.specs.Dues.{AreDues, AreRealTime, IsLeafOf, IsRealTime, IsToTell, UnitsAreUpTo};
ghost use Rattle.fate_timely.specs.Timely.{EndsInTime, ForCurve, StartsInTurn, is_in_time, longest_sent, longest_then};

use crate::leaf::Leaf;
use altq_model::Fate;
use fate_check::Row;
use play_base::NoMemory;
use service_curve::Curve;
use std::alloc::Global;

// The units of a byte.
const BYTE: u128 = 8_000_000_000;

// The longest packet with one row more.
fn longer(longest: u32, row: &Row) -> u32
    ensures { result ≡ longest_then row.now.len row.now.fate longest }
{
    match row.fate {
        Fate::Sent { .. } => row.len.max(longest),
        Fate::Dropped(_) => longest,
    }
}

/// The time of the longest packet that rows send at a rate of 1 to 10^12 bits per second, in nanoseconds, rounded up; 0 where they send
/// none.
pub fn longest_time(rate: u64, rows: &[Row]) -> u128
    requires { 0 < rate }
    ensures value { result ≡ ceil_div (units (longest_sent rows.now)) rate }
    ensures bounded { result < 2 ^ 66 }
{
    let mut longest: u32 = 0;
    for row in rows {
        longest = longer(longest, row);
    }
    (u128::from(longest) * BYTE + u128::from(rate - 1)) / u128::from(rate)
}

// What is held of a class that sent nothing.
fn leaf_of(curve: Option<Curve>) -> Option<Leaf>
    requires { ForCurve curve IsRealTime }
    ensures { (class : ℕ) → IsLeafOf curve class [] result }
{
    match curve {
        Some(curve) => Some(Leaf::new(curve)),
        None => None,
    }
}

// Whether a packet ends at most `most` after its due moment.
fn is_in_time(end: u64, due: Option<u128>, most: Option<u128>) -> bool
    requires due { IfSome due (λ t. t < 2 ^ 120) }
    requires most { IfSome most (λ t. t < 2 ^ 120) }
    ensures { result ≡ is_in_time end due most }
{
    match (due, most) {
        (Some(due), Some(most)) => u128::from(end) <= due + most,
        _ => true,
    }
}

// By class: what is held of it, where it has a curve.
#[derive(Drop)]
pub(crate) struct Dues {
    pub(crate) leaves: Vec<Option<Leaf>>,
}

impl Dues {
    // Before the first row.
    pub(crate) fn new(alloc: Global, curves: &[Option<Curve>]) -> Result<Dues, NoMemory>
        requires { AreRealTime curves.now }
        ensures { IfOk result (λ dues. AreDues curves.now [] dues.leaves.items) }
    {
        let mut leaves = Vec::new(alloc);
        for curve in curves {
            leaves.push(leaf_of(*curve))?;
        }
        Ok(Dues { leaves })
    }

    // Tells of a row; answers whether it passes the test.
    pub(crate) fn passes(&mut self, most: Option<u128>, row: &Row) -> bool
        requires most { IfSome most (λ t. t < 2 ^ 120) }
        requires few { UnitsAreUpTo (2 ^ 97) self.old.leaves.items }
        requires known { IsToTell self.old.leaves.items row.now }
        ensures few { (n : ℕ) → UnitsAreUpTo n self.old.leaves.items → UnitsAreUpTo (n + 2 ^ 65) self.new.leaves.items }
        ensures passes { result ≡ true → (curves : List (Option Curve)) (before : List Row) → AreDues curves before self.old.leaves.items
            → StartsInTurn before row.now
            → (m : ℕ) → most ≡ Some m → EndsInTime curves m before row.now }
        ensures stands { (curves : List (Option Curve)) (before : List Row) → AreDues curves before self.old.leaves.items → StartsInTurn before row.now
            → AreDues curves (row.now ∷ before) self.new.leaves.items }
        ensures fails { result ≡ false → (curves : List (Option Curve)) (before : List Row) → AreDues curves before self.old.leaves.items
            → StartsInTurn before row.now
            → (m : ℕ) × (most ≡ Some m) × (EndsInTime curves m before row.now → ⊥) }
    {
        let Fate::Sent { start, end, .. } = row.fate else {
            return true;
        };
        let class = row.class as usize;
        if class >= self.leaves.len() {
            return true;
        }
        let Some(leaf) = &mut self.leaves[class] else {
            return true;
        };
        let due = leaf.sent(row.at, row.len, start, end);
        is_in_time(end, due, most)
    }
}
