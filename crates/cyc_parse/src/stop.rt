//! The reasons why parsing ends without a tree: a rejected symbol, or lack of memory.
ghost use Rattle.std.specs.Prelude.{◌≡◌};
ghost use Rattle.cyc_parse.specs.declared.stop.Stop.TheVariants.{Memory};

use std::alloc::{AllocError, AllocFailed};

/// The reason why symbols are rejected. The rejection is located at the first symbol left, or at the end of the text.
#[derive(Clone, Copy)]
pub(crate) enum Reason {
    /// No program continues with the rejected symbol, or no program ends at the end of the text.
    Unexpected,
    /// The rejected symbol is nested too deep.
    TooDeep,
    /// The list element that begins at the rejected symbol exceeds the maximal number of elements of its list.
    TooLong,
}

#[derive(Clone, Copy)]
pub(crate) enum Stop {
    /// An allocation failed.
    Memory,
    Refused(Reason),
}

impl From<AllocError> for Stop {
    ghost from_gives = { λ _ e. e ≡ Memory };

    fn from(_e: AllocError) -> Stop {
        Stop::Memory
    }
}

impl<T: Drop> From<AllocFailed<T>> for Stop {
    ghost from_gives = { λ _ e. e ≡ Memory };

    fn from(_e: AllocFailed<T>) -> Stop {
        Stop::Memory
    }
}
