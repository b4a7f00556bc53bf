//! The reasons for which the type check stops.
ghost use Rattle.std.specs.Prelude.{◌≡◌};
ghost use Rattle.cyc_syntax.specs.inside.TreeView.{place_of_span};
ghost use Rattle.cyc_types.specs.Rules.{fault_at};
ghost use Rattle.cyc_scope.specs.declared.stop.Stop.TheVariants.{Memory, Refused};
ghost use Rattle.cyc_scope.specs.inside.Code.{fault_of};

use cyc_words::{Code, Fault, Span};
use std::alloc::{AllocError, AllocFailed};

/// The reason for which a type check stops.
#[derive(Clone, Copy, Debug, PartialEq, Eq)]
pub enum Stop {
    /// An allocation failed, or a count exceeded the size of memory.
    Memory,
    Refused(Fault),
}

impl From<AllocError> for Stop {
    ghost from_gives = { λ _ e. e ≡ Memory };

    fn from(_e: AllocError) -> Stop {
        Stop::Memory
    }
}

impl<T: Drop> From<AllocFailed<T>> for Stop {
    ghost from_gives = { λ _ e. e ≡ Memory };

    fn from(_e: AllocFailed<T>) -> Stop {
        Stop::Memory
    }
}

impl From<Stop> for Fault {
    ghost from_gives = { λ e f. f ≡ fault_of e };

    fn from(stop: Stop) -> Fault {
        match stop {
            Stop::Memory => Fault::memory(),
            Stop::Refused(fault) => fault,
        }
    }
}

/// Returns, as the reason why the type check stops, a fault with the given code at the given source position.
pub fn refused(code: Code, span: Span) -> Stop
    ensures { result ≡ Refused (fault_at code (place_of_span span)) }
{
    Stop::Refused(Fault {
        code,
        line: span.line,
        column: span.column,
    })
}
