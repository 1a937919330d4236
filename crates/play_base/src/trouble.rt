// What a call answers where it did not do its work.
ghost use Rattle.std.specs.Prelude.{◌≡◌};
ghost use Rattle.play_base.specs.declared.trouble.Trouble.TheVariants.{NoMemory as OutOfMemory};

use std::alloc::{AllocError, AllocFailed};

/// Why a call on files did not do its work.
#[derive(Clone, Copy, Debug, PartialEq, Eq)]
pub enum Trouble {
    /// The outside refused it: the file's part counted a fault, or the name to be opened is told not to be there.
    Failed,
    /// No memory was left, or no number for a further file.
    NoMemory,
}

/// The error of a call that found no memory.
#[derive(Clone, Copy, Debug, PartialEq, Eq)]
pub struct NoMemory;

impl From<AllocError> for NoMemory {
    fn from(_error: AllocError) -> NoMemory {
        NoMemory
    }
}

impl<T: Drop> From<AllocFailed<T>> for NoMemory {
    fn from(_error: AllocFailed<T>) -> NoMemory {
        NoMemory
    }
}

impl From<NoMemory> for Trouble {
    ghost from_gives = { λ _ trouble. trouble ≡ OutOfMemory };

    fn from(_error: NoMemory) -> Trouble {
        Trouble::NoMemory
    }
}

impl From<AllocError> for Trouble {
    ghost from_gives = { λ _ trouble. trouble ≡ OutOfMemory };

    fn from(_error: AllocError) -> Trouble {
        Trouble::NoMemory
    }
}
