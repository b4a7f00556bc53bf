//! The flow state of a program point of a function: the state of each local.
ghost use Rattle.std.specs.Prelude.{◌≡◌, IfOk};
ghost use Rattle.cyc_types.specs.flow.States.{Full, meet, is_at_least, fullness, with_fullness, with_each, emptied, lower, is_as_full, is_vacant};
ghost use Rattle.cyc_types.specs.flow.States.{is_locked, is_reached};
ghost use Rattle.cyc_types.specs.flow.Expressions.{is_free};
ghost use Rattle.cyc_flow.specs.inside.Code.{view_fullness, view_state};

use crate::table::Table;
use crate::touched::Touched;
use std::alloc::{AllocError, Global};

/// The state of a local: empty, lent or full. The order of the variants is from empty to full.
#[derive(Clone, Copy, PartialEq, Eq)]
pub(crate) enum Fullness {
    /// The local may be empty, so that it must not be used.
    Vacant,
    /// The local holds a value, which is lent out at present.
    Locked,
    /// The local holds a value, which is not lent out.
    Full,
}

impl Fullness {
    pub(crate) fn is_vacant(self) -> bool
        ensures { result ≡ is_vacant (view_fullness self) }
    {
        matches!(self, Fullness::Vacant)
    }

    pub(crate) fn is_locked(self) -> bool
        ensures { result ≡ is_locked (view_fullness self) }
    {
        matches!(self, Fullness::Locked)
    }

    pub(crate) fn lower(self, other: Fullness) -> Fullness
        ensures { view_fullness result ≡ lower (view_fullness self) (view_fullness other) }
    {
        if (self as u8) < (other as u8) {
            self
        } else {
            other
        }
    }

    pub(crate) fn is_as_full(self, other: Fullness) -> bool
        ensures { result ≡ is_as_full (view_fullness self) (view_fullness other) }
    {
        (other as u8) <= (self as u8)
    }
}

/// A change of a local's flow state, recorded as the local's index and its state before the change.
#[derive(Clone, Copy)]
pub(crate) struct Change {
    pub(crate) number: usize,
    pub(crate) before: Fullness,
}

#[derive(Drop)]
pub(crate) enum State {
    /// The program point is unreachable.
    Unreached,
    /// The program point is reachable. The table contains the state of each local, indexed by its number.
    Reached(Table),
}

impl State {
    /// Returns the state of a local: empty, lent or full. In unreachable code, each local is taken to be full.
    pub(crate) fn fullness(&self, number: usize) -> Fullness
        ensures { view_fullness result ≡ fullness (view_state self.now) number }
    {
        match self {
            State::Unreached => Fullness::Full,
            State::Reached(locals) => locals.fullness(number),
        }
    }

    /// Sets the state of one local to empty, lent or full. In unreachable code the call has no effect, since no state is stored.
    pub(crate) fn set(&mut self, number: usize, fullness: Fullness)
        ensures { view_state self.new ≡ with_fullness (view_fullness fullness) (view_state self.old) number }
    {
        if let State::Reached(locals) = self {
            locals.set(number, fullness);
        }
    }

    /// Returns the flow state in which each local of the list `numbers` is full.
    #[tactic(auto, using(crate::proofs::States::each_unreached))]
    pub(crate) fn filled(self, numbers: &[usize]) -> State
        ensures { view_state result ≡ with_each Full numbers.now (view_state self) }
    {
        match self {
            State::Unreached => State::Unreached,
            State::Reached(mut locals) => {
                locals.fill_each(numbers);
                State::Reached(locals)
            }
        }
    }

    /// Returns the flow state in which each touched local (consumed, assigned or locked) is empty, unless the local is lent.
    #[tactic(auto, using(crate::proofs::States::emptied_unreached))]
    pub(crate) fn emptied(self, touched: &Touched) -> State
        ensures { view_state result ≡ emptied touched.now.numbers.list (view_state self) }
    {
        match self {
            State::Unreached => State::Unreached,
            State::Reached(locals) => State::Reached(locals.emptied(touched.words())),
        }
    }

    pub(crate) fn is_reached(&self) -> bool
        ensures { result ≡ is_reached (view_state self.now) }
    {
        matches!(self, State::Reached(_))
    }

    /// Returns true if no value that was peeked from the local (read without a move) is still unused. In
    /// unreachable code the function always returns true.
    pub(crate) fn is_free(&self, waiting: &[usize], number: usize) -> bool
        ensures { result ≡ is_free waiting.now number (view_state self.now) }
    {
        match self {
            State::Unreached => true,
            State::Reached(_) => !waiting.contains(&number),
        }
    }

    /// Returns true if no local is emptier in this flow state than in the flow state `other`.
    pub(crate) fn is_at_least(&self, other: &State) -> bool
        ensures { result ≡ is_at_least (view_state self.now) (view_state other.now) }
    {
        match (self, other) {
            (State::Unreached, _) => true,
            (State::Reached(_), State::Unreached) => false,
            (State::Reached(here), State::Reached(there)) => here.is_as_full(there),
        }
    }

    /// Returns the index of the first local that is emptier in this flow state than in the flow state `other`, or 0 if none is. Only
    /// diagnostics use this function.
    pub(crate) fn first_emptier(&self, other: &State) -> usize {
        let (State::Reached(here), State::Reached(there)) = (self, other) else {
            return 0;
        };
        for number in 0..here.len() {
            if !here.fullness(number).is_as_full(there.fullness(number)) {
                return number;
            }
        }
        0
    }

    pub(crate) fn copy(&self, alloc: Global) -> Result<State, AllocError>
        ensures { IfOk result (λ s. view_state s ≡ view_state self.now) }
    {
        match self {
            State::Unreached => Ok(State::Unreached),
            State::Reached(locals) => Ok(State::Reached(locals.copy(alloc)?)),
        }
    }
}

/// Returns the flow state at the join of two branches.
pub(crate) fn meet(one: State, other: State) -> State
    ensures { view_state result ≡ meet (view_state one) (view_state other) }
{
    match (one, other) {
        (State::Unreached, other) => other,
        (one, State::Unreached) => one,
        (State::Reached(one), State::Reached(other)) => State::Reached(one.lower(&other)),
    }
}
