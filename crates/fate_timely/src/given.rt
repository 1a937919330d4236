// How late leaves came, or which packet came too late.
ghost use Rattle.std.specs.Prelude.{◌≡◌};

use play_base::NoMemory;

/// Of a class with a real-time curve: the greatest end less due moment, in nanoseconds, of its packets that have a due moment; None
/// where none has.
#[derive(Clone, Copy, Debug, PartialEq, Eq)]
pub struct Late {
    pub class: u32,
    pub worst: Option<i128>,
}

/// Why rows are not timely.
#[derive(Clone, Copy, Debug, PartialEq, Eq)]
pub enum Overdue {
    /// The first row whose packet ends too late; rows are counted from 1.
    At(u64),
    NoMemory,
}

impl From<NoMemory> for Overdue {
    ghost use Rattle.fate_timely.specs.declared.given.Overdue.TheVariants.{NoMemory as OutOfMemory};

    ghost from_gives = { λ _ overdue. overdue ≡ OutOfMemory };

    fn from(_error: NoMemory) -> Overdue {
        Overdue::NoMemory
    }
}
