// The fates of a first play by their numbers.
ghost use Rattle.std.specs.Prelude.{◌≡◌, ◌≢◌, ◌≤◌, ◌<◌, ◌+◌, ◌++◌, ◌∷◌, [], ℕ, List, IfOk, None, OnErr, OnOk, length};
ghost use Rattle.play_chain.specs.Path.{kept_under};
ghost use Rattle.play_chain.specs.Tables.{IsFirstTable, first_by, first_in};

use altq_model::Fate;
use play_base::NoMemory;
use std::alloc::Global;

/// What a first play made of a packet, with its arrival in nanoseconds.
#[derive(Clone, Copy)]
pub enum First {
    /// Nothing yet.
    Absent,
    /// It was dropped.
    Dropped { arrival: u64 },
    /// It was sent. `place` is its number in the second play: its place among the sendings, from 1.
    Sent { arrival: u64, place: u64 },
}

/// The fates of a first play in a table by their numbers, of 24 bytes for each number up to the greatest and the room by which a `Vec`
/// grows; no clause bounds that.
#[derive(Drop)]
pub struct Firsts {
    pub(crate) rows: Vec<First>,
    // how many were sent
    pub(crate) sent: u64,
}

impl Firsts {
    ghost use Rattle.play_loop.specs.declared.kept.KeptFate.{KeptFate};
    ghost use Rattle.play_chain.specs.Tables.{HoldsFirsts};

    /// No fate. Does not allocate.
    pub fn new(alloc: Global) -> Firsts
        ensures table { IsFirstTable result [] }
        ensures holds { HoldsFirsts result [] }
    {
        Firsts {
            rows: Vec::new(alloc),
            sent: 0,
        }
    }

    // The place of the next sending. The only error is that it is no u64.
    pub(crate) fn next_place(&self) -> Result<u64, NoMemory>
        ensures { IfOk result (λ place. place ≡ self.now.sent + 1) }
    {
        match self.sent.checked_add(1) {
            Some(place) => Ok(place),
            None => Err(NoMemory),
        }
    }

    // Adds a fate of a number, its arrival in nanoseconds. The only error is lack of memory, and then none is added.
    pub(crate) fn add(&mut self, number: u64, at: u64, fate: &Fate) -> Result<(), NoMemory>
        ensures added { OnOk result ((first : List KeptFate) → IsFirstTable self.old first → kept_under first number ≡ None
            → IsFirstTable self.new (first ++ record { number = number; arrival = at; fate = fate.now } ∷ [])) }
        ensures refused { OnErr result ((first : List KeptFate) → IsFirstTable self.old first → IsFirstTable self.new first) }
    {
        make_room(&mut self.rows, number)?;
        match fate {
            Fate::Dropped(_) => set_row(&mut self.rows, number, First::Dropped { arrival: at }),
            Fate::Sent { .. } => {
                let place = self.next_place()?;
                self.sent = place;
                set_row(&mut self.rows, number, First::Sent { arrival: at, place });
            }
        }
        Ok(())
    }
}

/// The row of a number.
pub fn first_at(rows: &[First], number: u64) -> First
    ensures { result ≡ first_in rows.now number }
{
    match rows.get(number as usize) {
        Some(row) => *row,
        None => First::Absent,
    }
}

// Makes room for a number. The only error is lack of memory, and then the rows are as they were.
fn make_room(rows: &mut Vec<First>, number: u64) -> Result<(), NoMemory>
    ensures room { OnOk result (number < length rows.new.items) }
    ensures longer { length rows.old.items ≤ length rows.new.items }
    ensures same { (n : ℕ) → first_in rows.new.items n ≡ first_in rows.old.items n }
{
    let place = number as usize;
    if place < rows.len() {
        return Ok(());
    }
    let Some(count) = place.checked_add(1) else {
        return Err(NoMemory);
    };
    match rows.resize(count, First::Absent) {
        Ok(()) => Ok(()),
        Err(_) => Err(NoMemory),
    }
}

// Sets the row of a number for which there is room.
fn set_row(rows: &mut Vec<First>, number: u64, row: First)
    requires { number < length rows.old.items }
    ensures here { first_in rows.new.items number ≡ row }
    ensures others { (n : ℕ) → number ≢ n → first_in rows.new.items n ≡ first_in rows.old.items n }
    ensures length { length rows.new.items ≡ length rows.old.items }
{
    rows[number as usize] = row;
}
