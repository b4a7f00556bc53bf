//! The requirements of a flow rule on one construct are checked in order. If several are violated, the fault with the lowest code is
//! reported, and the first if several faults have that code.
ghost use Rattle.std.specs.Prelude.{◌≡◌, None};
ghost use Rattle.cyc_syntax.specs.inside.TreeView.{place_of_span};
ghost use Rattle.cyc_types.specs.Rules.{demand, noted, settled};
ghost use Rattle.cyc_types.specs.flow.Expressions.{full_demanded, use_demanded, store_demanded, head_demanded};
ghost use Rattle.cyc_flow.specs.inside.Code.{view_state, Ends};

use crate::state::State;
use crate::stop::Stop;
use cyc_words::{Code, Fault, Span};

#[derive(Clone, Copy)]
pub(crate) struct Settled {
    /// The fault found so far, if any.
    known: Option<Fault>,
    /// The local that the fault concerns, if any. No rule depends on this local.
    number: usize,
}

impl Settled {
    pub(crate) fn new() -> Settled
        ensures { result.known ≡ None }
    {
        Settled {
            known: None,
            number: 0,
        }
    }

    pub(crate) fn demand(&mut self, code: Code, span: Span, number: usize, kept: bool)
        ensures { self.new.known ≡ noted self.old.known (demand code (place_of_span span) kept) }
    {
        if kept {
            return;
        }
        if let Some(known) = self.known {
            if code.number() >= known.code.number() {
                return;
            }
        }
        self.known = Some(Fault {
            code,
            line: span.line,
            column: span.column,
        });
        self.number = number;
    }

    /// Requires that the local whose name is at this source position holds a value that is not lent.
    pub(crate) fn look(&mut self, state: &State, span: Span, number: usize)
        ensures { self.new.known ≡ settled self.old.known (full_demanded (place_of_span span) number (view_state state.now)) }
    {
        let fullness = state.fullness(number);
        self.demand(Code::EmptyVariable, span, number, !fullness.is_vacant());
        self.demand(Code::LockedVariable, span, number, !fullness.is_locked());
    }

    /// Requires that the local whose name is at this source position holds a value that is not lent. No value that
    /// was peeked from this local (read without a move) may still be unused.
    pub(crate) fn use_local(&mut self, waiting: &[usize], state: &State, span: Span, number: usize)
        ensures { self.new.known ≡ settled self.old.known (use_demanded waiting.now (place_of_span span) number (view_state state.now)) }
    {
        self.look(state, span, number);
        self.demand(
            Code::LockedVariable,
            span,
            number,
            state.is_free(waiting, number),
        );
    }

    /// Requires that the assigned local is not lent, and that no value that was peeked from it (read without a move) is still unused.
    pub(crate) fn store_local(
        &mut self,
        waiting: &[usize],
        state: &State,
        span: Span,
        number: usize,
    )
        ensures { self.new.known ≡ settled self.old.known (store_demanded waiting.now (place_of_span span) number (view_state state.now)) }
    {
        let is_lent = state.fullness(number).is_locked();
        self.demand(
            Code::LockedVariable,
            span,
            number,
            !is_lent && state.is_free(waiting, number),
        );
    }

    /// Requires that no local is emptier at this program point than at the head of the loop whose keyword is at the given source position.
    pub(crate) fn go_on(&mut self, state: &State, head: &State, span: Span)
        ensures { self.new.known ≡ settled self.old.known (head_demanded (place_of_span span) (view_state state.now) (view_state head.now)) }
    {
        let kept = state.is_at_least(head);
        let number = if kept { 0 } else { state.first_emptier(head) };
        self.demand(Code::LoopEmptiesVariable, span, number, kept);
    }

    /// Returns the fault found by the check of a construct's requirements, if one of them was violated.
    pub(crate) fn end(&self) -> Result<(), Stop>
        ensures { Ends result self.now.known }
    {
        match self.known {
            Some(fault) => Err(Stop::Refused {
                fault,
                number: self.number,
            }),
            None => Ok(()),
        }
    }
}

/// Checks that no local is emptier at this program point than at the head of the loop whose keyword is at the given source position.
pub(crate) fn check_head(state: &State, head: &State, span: Span) -> Result<(), Stop>
    ensures { Ends result (settled None (head_demanded (place_of_span span) (view_state state.now) (view_state head.now))) }
{
    let mut settled = Settled::new();
    settled.go_on(state, head, span);
    settled.end()
}
