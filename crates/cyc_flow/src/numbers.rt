//! The indices of the touched locals (consumed, assigned or locked), in a ghost list that only contracts and proofs read.

ghost use Rattle.std.specs.Prelude.{◌≡◌, ℕ, List, [], ◌++◌};
ghost use Rattle.std.specs.Borrow.{ftrue};
ghost use Rattle.cyc_types.specs.flow.Touched.{and_local};

use std::marker::Model;

/// A touch of a local: the local is consumed, assigned or locked.
#[derive(Clone, Copy)]
pub(crate) struct Touch {
    pub(crate) number: usize,
}

/// The indices of the touched locals, in the order of the traversal and with repetitions. Only contracts read this list; it takes no
/// memory, and its functions do nothing at run time.
#[derive(Drop)]
pub(crate) struct Numbers {
    pub(crate) ghost list: { List ℕ },
}

impl Model for Numbers {
    ghost also_owns = { λ _. ftrue };
}

impl Numbers {
    /// Returns the empty list of touched locals, that is, of locals that were consumed, assigned or locked.
    pub(crate) fn none() -> Numbers
        ensures { result.list ≡ [] }
    {
        Numbers {}
    }

    /// Returns the list of touched locals (consumed, assigned or locked), extended by one more such local.
    pub(crate) fn with(_before: &Numbers, _touch: &Touch) -> Numbers
        ensures { result.list ≡ and_local _touch.now.number _before.now.list }
    {
        Numbers {}
    }

    /// Returns the concatenation of two lists of touched locals, that is, of locals that were consumed, assigned or locked.
    pub(crate) fn joined(_before: &Numbers, _more: &Numbers) -> Numbers
        ensures { result.list ≡ _before.now.list ++ _more.now.list }
    {
        Numbers {}
    }
}
