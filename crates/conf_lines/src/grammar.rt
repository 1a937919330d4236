//! What may stand where in a statement. A `Place` is a state of its parser.

use crate::fault::ConfKind;
use crate::item::What;
use crate::part::Part;
use crate::statement::Form;

/// What the next word of a statement is.
#[derive(Clone, Copy)]
pub(crate) enum Next {
    /// The word that says which statement it is.
    Statement,
    /// `hfsc` or `cbq`, behind `class`.
    Discipline,
    /// One of the parts that may still come, or behind them an option, or the end.
    Part,
    /// A WORD without effect.
    Skipped,
    /// A RATE in a range.
    Rate(u64, u64),
    /// A WHOLE in a range.
    Whole(u64, u64),
    /// A mask of an IPv4 address.
    Mask,
    /// The first slope of a curve, which is at least a rate, as its second slope is at least another.
    Slope(u64, u64),
    /// The time of its bend, behind its first slope.
    Bend(u64, u64),
    /// Its second slope, behind its first slope and the time of its bend.
    LastSlope(u64, u64, u64),
    /// The rate of a meter of one rate, which its two bursts follow.
    Cir,
    /// Its burst, behind its rate.
    Cbs,
    /// The peak rate of a meter of two rates.
    Pir,
    /// The burst of that, behind the peak rate.
    Pbs(u64),
    /// The committed rate, which is at most the peak rate.
    CirBelow(u64),
}

/// A state of the parser of a statement.
#[derive(Clone, Copy)]
pub(crate) struct Place {
    /// Which statement it is.
    pub(crate) form: Form,
    /// What the next word is.
    pub(crate) next: Next,
    /// The parts that may still come, behind that word where it is none of them.
    pub(crate) parts: &'static [Part],
    /// Whether the part before stands and is not the address `0`.
    pub(crate) stands: bool,
    /// Whether it has what it must have by its end besides its parts: an interface its discipline, a class that is not the
    /// root its share.
    pub(crate) completed: bool,
}

/// The item of a word, if it gives more than which statement it is, and the parser's state after the word.
#[derive(Drop)]
pub(crate) struct Step {
    pub(crate) what: Option<What>,
    pub(crate) after: Place,
}

/// Why a word is refused.
#[derive(Clone, Copy)]
pub(crate) enum Refusal {
    /// It is a fault of this kind.
    Kind(ConfKind),
    /// Memory ran out.
    NoMemory,
}
