// The paths of packets through two links.
use crate::firsts::Firsts;
use crate::row::{Piece, piece_from, table_text};
use crate::seconds::{Second, Seconds, make_room, row_of, set_row};
use altq_model::Fate;
use play_base::NoMemory;
use std::alloc::Global;

/// The paths of packets through two links, as far as they are known. Contracts say for which fates of the first play and of the second
/// a value stands. The k-th sending of the first play is packet k of the second.
#[derive(Drop)]
pub struct Path {
    pub(crate) alloc: Global,
    pub(crate) firsts: Firsts,
    pub(crate) seconds: Seconds,
}

impl Path {
    ghost use Rattle.std.specs.Prelude.{◌≡◌, ◌≤◌, ◌<◌, ◌++◌, ◌∷◌, [], List, length, IfOk, OnErr, OnOk};
    ghost use Rattle.altq_model.specs.History.{Decision};
    ghost use Rattle.play_loop.specs.declared.kept.KeptFate.{KeptFate};
    ghost use Rattle.play_chain.specs.Path.{sendings};
    ghost use Rattle.play_chain.specs.Stands.{Represents, TakesFirst, TakesSecond, bound, of_sendings, rows_to, text_of};
    ghost use Rattle.play_chain.specs.Tables.{AreOnce, IsFirstTable, IsSecondTable, text_in};
    ghost use Rattle.play_chain.specs.Text.{path_text};

    /// No packet. Does not allocate.
    pub fn new(alloc: Global) -> Path
        ensures { Represents result [] [] }
    {
        Path {
            alloc,
            firsts: Firsts::new(alloc),
            seconds: Seconds::new(alloc),
        }
    }

    /// The paths by the fates of both plays. Second fates whose number is not that of a sending of the first play are passed over. The
    /// only error is lack of memory; takes at most 16 bytes for each sending, and none where each has a second fate.
    pub fn through(alloc: Global, firsts: Firsts, seconds: Seconds) -> Result<Path, NoMemory>
        ensures stands { IfOk result (λ path. (first : List KeptFate) (second : List Decision) → AreOnce first → IsFirstTable firsts first
            → IsSecondTable seconds second → Represents path first (of_sendings (length (sendings first)) second)) }
        ensures text { IfOk result (λ path. text_of path ≡ text_in firsts seconds) }
    {
        let mut path = Path {
            alloc,
            firsts,
            seconds,
        };
        make_room(&mut path.seconds.rows, path.firsts.sent)?;
        Ok(path)
    }

    /// The next fate of the first play: the number of its packet, which was not given before, its arrival in nanoseconds, and its fate.
    /// The only error is lack of memory, and then it stands for what it stood for. Takes at most 100 bytes for each number up to the
    /// greatest.
    pub fn first(&mut self, number: u64, at: u64, fate: &Fate) -> Result<(), NoMemory>
        requires { TakesFirst self.old number }
        ensures given { OnOk result ((first : List KeptFate) (second : List Decision) → Represents self.old first second
            → Represents self.new (first ++ record { number = number; arrival = at; fate = fate.now } ∷ []) second) }
        ensures refused { OnErr result ((first : List KeptFate) (second : List Decision) → Represents self.old first second
            → Represents self.new first second) }
    {
        let place = self.firsts.next_place()?;
        make_room(&mut self.seconds.rows, place)?;
        set_row(&mut self.seconds.rows, place, Second::Absent);
        self.firsts.add(number, at, fate)
    }

    /// How many packets the first play sent, of those whose fates were given. Does not allocate.
    pub fn sendings(&self) -> u64
        ensures { (first : List KeptFate) (second : List Decision) → Represents self.now first second → result ≡ length (sendings first) }
    {
        self.firsts.sent
    }

    /// The next fate of the second play: the number of its packet there, from 1 to the count of sendings that were given, and not given
    /// before. Does not allocate, in constant time.
    pub fn second(&mut self, number: u64, fate: &Fate)
        requires { TakesSecond self.old number }
        ensures { (first : List KeptFate) (second : List Decision) → Represents self.old first second
            → Represents self.new first (second ++ (number, fate.now) ∷ []) }
    {
        set_row(&mut self.seconds.rows, number, row_of(fate));
    }

    /// The text of the paths: the head row `number,arrival,outcome,end`, and a row for each packet of the first play, in the order of
    /// their numbers. The outcome is `dropped1`, `dropped2` or `sent`, and the end is that on the second link, empty for a drop and
    /// where the second fate is not known. The only error is lack of memory. Costs the length of the text, and a step for each number
    /// up to the greatest.
    pub fn text(&self) -> Result<Vec<u8>, NoMemory>
        ensures paths { IfOk result (λ text. (first : List KeptFate) (second : List Decision) → Represents self.now first second
            → text.items ≡ path_text first second) }
        ensures tables { IfOk result (λ text. text.items ≡ text_of self.now) }
    {
        let text = table_text(self.alloc, &self.firsts.rows, &self.seconds.rows)?;
        Ok(text)
    }

    /// No number that has a row is as great as this. Does not allocate.
    pub fn bound(&self) -> usize
        ensures { result ≡ bound self.now }
    {
        self.firsts.rows.len()
    }

    /// The rows of at most 1,024 numbers from `from` on, and the number behind those: the text is the head row and the pieces from 0 on.
    /// The only error is lack of memory. Costs the length of the piece, and a step for each number.
    pub fn piece_from(&self, from: usize) -> Result<Piece, NoMemory>
        requires { from ≤ bound self.now }
        ensures rows { IfOk result (λ p. rows_to self.now p.next ≡ rows_to self.now from ++ p.text.items) }
        ensures on { IfOk result (λ p. from < bound self.now → from < p.next) }
        ensures within { IfOk result (λ p. p.next ≤ bound self.now) }
    {
        let found = piece_from(self.alloc, &self.firsts.rows, &self.seconds.rows, from)?;
        Ok(found)
    }
}
