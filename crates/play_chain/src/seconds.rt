// The fates of a second play by their numbers.
ghost use Rattle.std.specs.Prelude.{◌≡◌, ◌≢◌, ◌≤◌, ◌<◌, ◌++◌, ◌∷◌, [], ℕ, List, None, Some, OnOk, length};
ghost use Rattle.altq_model.specs.History.{Decision};
ghost use Rattle.play_chain.specs.Path.{fate_under};
ghost use Rattle.play_chain.specs.Tables.{IsSecondTable, second_in, second_row};

use altq_model::Fate;
use play_base::NoMemory;
use std::alloc::Global;

/// What a second play made of a packet.
#[derive(Clone, Copy)]
pub enum Second {
    /// Nothing yet.
    Absent,
    /// It was dropped.
    Dropped,
    /// It was sent, to this end in nanoseconds.
    Sent { end: u64 },
}

/// The fates of a second play in a table by their numbers there, of 16 bytes for each number up to the greatest and the room by which a
/// `Vec` grows; no clause bounds that.
#[derive(Drop)]
pub struct Seconds {
    pub(crate) rows: Vec<Second>,
}

impl Seconds {
    ghost use Rattle.play_chain.specs.Tables.{HoldsSeconds};

    /// No fate. Does not allocate.
    pub fn new(alloc: Global) -> Seconds
        ensures table { IsSecondTable result [] }
        ensures holds { HoldsSeconds result [] }
    {
        Seconds {
            rows: Vec::new(alloc),
        }
    }

    // Adds a fate of a number. The only error is lack of memory, and then none is added.
    pub(crate) fn add(&mut self, number: u64, fate: &Fate) -> Result<(), NoMemory>
        ensures { OnOk result ((js : List Decision) → IsSecondTable self.old js → fate_under js number ≡ None
            → IsSecondTable self.new (js ++ (number, fate.now) ∷ [])) }
    {
        make_room(&mut self.rows, number)?;
        set_row(&mut self.rows, number, row_of(fate));
        Ok(())
    }
}

/// The row of a fate.
pub fn row_of(fate: &Fate) -> Second
    ensures { result ≡ second_row (Some fate.now) }
{
    match *fate {
        Fate::Dropped(_) => Second::Dropped,
        Fate::Sent { end, .. } => Second::Sent { end },
    }
}

/// The row of a number.
pub fn second_at(rows: &[Second], number: u64) -> Second
    ensures { result ≡ second_in rows.now number }
{
    match rows.get(number as usize) {
        Some(row) => *row,
        None => Second::Absent,
    }
}

/// Makes room for a number. The only error is lack of memory, and then the rows are as they were.
pub fn make_room(rows: &mut Vec<Second>, number: u64) -> Result<(), NoMemory>
    ensures room { OnOk result (number < length rows.new.items) }
    ensures longer { length rows.old.items ≤ length rows.new.items }
    ensures same { (k : ℕ) → second_in rows.new.items k ≡ second_in rows.old.items k }
{
    let place = number as usize;
    if place < rows.len() {
        return Ok(());
    }
    let Some(count) = place.checked_add(1) else {
        return Err(NoMemory);
    };
    match rows.resize(count, Second::Absent) {
        Ok(()) => Ok(()),
        Err(_) => Err(NoMemory),
    }
}

/// Sets the row of a number for which there is room.
pub fn set_row(rows: &mut Vec<Second>, number: u64, row: Second)
    requires { number < length rows.old.items }
    ensures here { second_in rows.new.items number ≡ row }
    ensures others { (k : ℕ) → number ≢ k → second_in rows.new.items k ≡ second_in rows.old.items k }
    ensures length { length rows.new.items ≡ length rows.old.items }
{
    rows[number as usize] = row;
}
