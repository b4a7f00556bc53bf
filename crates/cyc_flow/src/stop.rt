//! The reasons for which the flow check stops.
ghost use Rattle.std.specs.Prelude.{◌≡◌};
ghost use Rattle.cyc_flow.specs.declared.stop.Stop.TheVariants.{Memory, Refused};
ghost use Rattle.cyc_flow.specs.inside.Code.{fault_of};

use cyc_words::Fault;
use std::alloc::{AllocError, AllocFailed};

#[derive(Clone, Copy)]
pub(crate) enum Stop {
    /// An allocation failed.
    Memory,
    /// A violated flow rule, with the index of the local that it concerns, if any.
    Refused { fault: Fault, number: usize },
}

impl From<AllocError> for Stop {
    ghost from_gives = { λ _ e. e ≡ Memory };

    fn from(_e: AllocError) -> Stop {
        Stop::Memory
    }
}

impl<T: Drop> From<AllocFailed<T>> for Stop {
    ghost from_gives = { λ _ e. e ≡ Memory };

    fn from(_e: AllocFailed<T>) -> Stop {
        Stop::Memory
    }
}

impl From<Stop> for Fault {
    ghost from_gives = { λ e f. f ≡ fault_of e };

    fn from(stop: Stop) -> Fault {
        match stop {
            Stop::Memory => Fault::memory(),
            Stop::Refused { fault, .. } => fault,
        }
    }
}
