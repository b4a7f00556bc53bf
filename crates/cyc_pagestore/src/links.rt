//! The rows of a page table, as contracts and proofs see them.

ghost use Rattle.std.specs.Prelude.{◌≡◌};
ghost use Rattle.std.specs.Borrow.{ftrue};
ghost use Rattle.cyc_pagestore.specs.inside.Links.{Links, no_links, after};

use super::step::Step;
use std::marker::Model;

/// The rows of a page table with the links between them, for contracts only. The record's size is 0, and its functions do nothing at run
/// time: closing a region changes a row of each of its pages, but only one page of the pool.
#[derive(Drop)]
pub struct Roster {
    pub ghost links: { Links },
}

impl Model for Roster {
    ghost also_owns = { λ _. ftrue };
}

impl Roster {
    /// Returns the rows of a table without pages.
    pub(crate) fn new() -> Roster
        ensures { result.links ≡ no_links }
    {
        Roster {}
    }

    /// Returns the rows of the page table (each the data of one page) after the given change to them, for contracts only.
    pub(crate) fn with(_before: &Roster, _step: &Step) -> Roster
        ensures { result.links ≡ after _before.now.links _step.now }
    {
        Roster {}
    }
}
