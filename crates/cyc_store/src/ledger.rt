//! This file defines the blocks of a store as contracts and proofs see them.

ghost use Rattle.std.specs.Prelude.{◌≡◌};
ghost use Rattle.std.specs.Borrow.{ftrue};
ghost use Rattle.cyc_store.specs.Ledger.{Blocks, no_blocks, after};

use super::change::Change;
use std::marker::Model;

/// The blocks of a store, which only contracts read. The list of blocks takes no memory, and its functions do nothing at run time: a store
/// does not need to know where each of its blocks ends.
#[derive(Drop)]
pub struct Ledger {
    pub ghost blocks: { Blocks },
}

impl Model for Ledger {
    ghost also_owns = { λ _. ftrue };
}

impl Ledger {
    /// Returns the blocks of a new store.
    pub fn new() -> Ledger
        ensures { result.blocks ≡ no_blocks }
    {
        Ledger {}
    }

    /// Returns the record of a store's blocks (ledger) that results from the ledger `_before` by the event `_change`.
    pub fn with(_before: &Ledger, _change: &Change) -> Ledger
        ensures { result.blocks ≡ after _before.now.blocks _change.now }
    {
        Ledger {}
    }
}
