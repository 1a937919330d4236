// One row of each packet.
ghost use Rattle.std.specs.Prelude.{◌≡◌, ◌≤◌, ◌<◌, ℕ, List, [], ◌∷◌, IfOk, MatchOption, get_or, length, true, false, vec_len};
ghost use Rattle.fate_check.specs.declared.reading.Row.{Row};
ghost use Rattle.fate_judge.specs.Tests.{AreSeen, HaveOne, IsNewPacket, IsNumbered, LacksOne};
ghost use Rattle.fate_judge.specs.Walk.{EachRow};

use fate_check::Row;
use play_base::NoMemory;
use std::alloc::Global;

// The first place, from one place on, at which nothing is set.
pub(crate) fn first_unset(set: &[bool], from: usize) -> usize
    requires { from ≤ length set.now }
    ensures later { from ≤ result }
    ensures within { result ≤ length set.now }
    ensures set_before { (k : ℕ) → from ≤ k → k < result → get_or set.now k false ≡ true }
    ensures unset { result < length set.now → get_or set.now result false ≡ false }
{
    let mut place = from;
    while place < set.len() && set[place] {
        place += 1;
    }
    place
}

// Which numbers have a row.
#[derive(Drop)]
pub(crate) struct Seen {
    pub(crate) numbers: Vec<bool>,
}

impl Seen {
    // Before the first row.
    pub(crate) fn new(alloc: Global, count: usize) -> Result<Seen, NoMemory>
        ensures count { IfOk result (λ seen. vec_len seen.numbers ≡ count) }
        ensures none { IfOk result (λ seen. AreSeen seen.numbers.items []) }
    {
        Ok(Seen {
            numbers: vec![in alloc; false; count]?,
        })
    }

    // Whether a row passes the test; then it is told of the row.
    pub(crate) fn passes(&mut self, row: &Row) -> bool
        requires from_one { 0 < row.now.number }
        requires there { row.now.number ≤ vec_len self.old.numbers }
        ensures count { vec_len self.new.numbers ≡ vec_len self.old.numbers }
        ensures passes { result ≡ true → (before : List Row) → AreSeen self.old.numbers.items before → IsNewPacket before row.now }
        ensures stands { result ≡ true → (before : List Row) → AreSeen self.old.numbers.items before → AreSeen self.new.numbers.items (row.now ∷ before) }
        ensures fails { result ≡ false → (before : List Row) → AreSeen self.old.numbers.items before → ¬ IsNewPacket before row.now }
    {
        let place = row.number as usize - 1;
        if self.numbers[place] {
            return false;
        }
        self.numbers[place] = true;
        true
    }
}

// The first row whose packet has one before it; or the row after the last one, where a packet has none.
pub(crate) fn first_again(
    alloc: Global,
    count: usize,
    rows: &[Row],
) -> Result<Option<u64>, NoMemory>
    requires { EachRow (IsNumbered count) [] rows.now }
    ensures { IfOk result (λ o. MatchOption o (HaveOne count rows.now) (LacksOne count rows.now)) }
{
    let mut seen = Seen::new(alloc, count)?;
    for (i, row) in rows.iter().enumerate() {
        if !seen.passes(row) {
            return Ok(Some(i as u64 + 1));
        }
    }
    if first_unset(&seen.numbers, 0) < count {
        return Ok(Some(rows.len() as u64 + 1));
    }
    Ok(None)
}
