//! Accumulates the faults of the typing rules' requirements on a construct, checked in order. Of several violated requirements, the one
//! with the lowest fault code is reported, and the first if several have that code.
ghost use Rattle.std.specs.Prelude.{◌≡◌, None};
ghost use Rattle.cyc_syntax.specs.inside.TreeView.{place_of_span};
ghost use Rattle.cyc_types.specs.Rules.{demand, noted};
ghost use Rattle.cyc_scope.specs.inside.Code.{Ends};

use crate::stop::Stop;
use cyc_words::{Code, Fault, Span};

/// The fault, if any, of the requirements that were checked so far.
#[derive(Clone, Copy)]
pub struct Settled {
    /// The fault of the requirements that were checked so far, or `None` if all were satisfied.
    pub known: Option<Fault>,
}

impl Settled {
    /// Returns the record of faults before any requirement is checked.
    pub fn new() -> Settled
        ensures { result.known ≡ None }
    {
        Settled { known: None }
    }

    /// Checks one more requirement of the typing rules. If the requirement is violated, its fault is recorded, unless a
    /// fault with an equal or a lower code is already recorded.
    pub fn demand(&mut self, code: Code, span: Span, kept: bool)
        ensures { self.new.known ≡ noted self.old.known (demand code (place_of_span span) kept) }
    {
        if kept {
            return;
        }
        if let Some(known) = self.known {
            if code.number() >= known.code.number() {
                return;
            }
        }
        self.known = Some(Fault {
            code,
            line: span.line,
            column: span.column,
        });
    }

    /// Succeeds if all requirements of the typing rules that were checked so far were satisfied; otherwise returns the recorded fault.
    pub fn end(&self) -> Result<(), Stop>
        ensures { Ends result self.now.known }
    {
        match self.known {
            Some(fault) => Err(Stop::Refused(fault)),
            None => Ok(()),
        }
    }
}
