//! The free pages of a pool and its chains (lists of linked pages), as contracts and proofs see them, without a representation at run time.

ghost use Rattle.std.specs.Prelude.{◌≡◌};
ghost use Rattle.std.specs.Borrow.{ftrue};
ghost use Rattle.cyc_rawpages.specs.inside.Lists.{Lists, no_pages, after};

use super::change::Change;
use std::marker::Model;

/// The free pages and the chains of a pool, for contracts only. The struct `Roll` has size 0, and its functions do nothing at run time. At
/// run time the pool finds the free pages and the chains by the links in its headers.
#[derive(Drop)]
pub struct Roll {
    pub ghost lists: { Lists },
}

impl Model for Roll {
    ghost also_owns = { λ _. ftrue };
}

impl Roll {
    /// Returns, for contracts only, the lists of free pages and chains of a pool without pages.
    pub(crate) fn new() -> Roll
        ensures { result.lists ≡ no_pages }
    {
        Roll {}
    }

    /// Returns, for contracts only, the free pages of a pool and its chains (lists of linked pages) after a change.
    pub(crate) fn with(_before: &Roll, _change: &Change) -> Roll
        ensures { result.lists ≡ after _before.now.lists _change.now }
    {
        Roll {}
    }
}
