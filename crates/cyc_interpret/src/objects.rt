//! Regions and objects.

ghost use Rattle.std.specs.Prelude.{◌≡◌, ◌++◌, ℕ, List};
ghost use Rattle.cyc_words.specs.Demand.{pages_from};

use crate::value::Value;
use cyc_types::typed::Kind;

/// What a region is.
#[derive(Clone, Copy)]
pub enum Sort {
    Heap,
    Globals,
    /// Of the variables of a block or of a call.
    Stack,
    Lexical,
    Dynamic,
}

#[derive(Drop)]
pub struct Region {
    pub sort: Sort,
    pub is_open: bool,
    /// The sizes of the blocks made in it, in words and in the order made.
    pub blocks: Vec<u128>,
    /// The pages of these blocks, and how far the last one is filled.
    pub pages: u128,
    pub filled: u128,
    pub ghost full: { (rest : List ℕ) → pages_from 1 0 (blocks.items ++ rest) ≡ pages_from pages filled rest },
}

/// Who gives an object back.
#[derive(Clone, Copy)]
pub enum Owner {
    InRegion { region: usize },
    Unique { live: bool },
}

#[derive(Clone, Copy)]
pub struct Cell {
    pub kind: Kind,
    pub content: Option<Value>,
}

#[derive(Drop)]
pub struct Object {
    pub owner: Owner,
    pub cells: Vec<Cell>,
}
