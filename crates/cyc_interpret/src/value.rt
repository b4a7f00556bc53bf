//! Values, and the operands that wait with their kinds.

ghost use Rattle.std.specs.Prelude.{◌+◌, ◌^◌, ◌≤◌};

use cyc_types::typed::Kind;

/// A part of an object: its first cell, its number of cells, and the index in it.
#[derive(Clone, Copy)]
pub struct Part {
    pub object: usize,
    pub start: usize,
    pub count: u32,
    pub index: u32,
    pub ghost within: { start + count ≤ 2 ^ 64 },
}

#[derive(Clone, Copy)]
pub enum Value {
    Int { word: u32 },
    Null,
    /// A cell of an object.
    Thin { object: usize, offset: usize },
    Fat { part: Part },
    /// The region of this number.
    Handle { region: usize },
    /// The key of a dynamic region.
    Key { region: usize },
}

/// A value that waits until it is needed, with the kind of what gave it.
#[derive(Clone, Copy)]
pub struct Operand {
    pub kind: Kind,
    pub value: Value,
}

/// What becomes of values that are computed with.
#[derive(Clone, Copy)]
pub enum Outcome {
    Gives { value: Value },
    /// An exception of this tag is raised.
    Raises { tag: usize },
    /// No case applies.
    Misfits,
}

/// The cell that a pointer leads to.
#[derive(Clone, Copy)]
pub enum Reach {
    At { object: usize, offset: usize },
    /// An exception of this tag is raised.
    Stops { tag: usize },
    Nowhere,
}

/// A cell that is to be written, by a thin pointer, and what it gets.
#[derive(Clone, Copy)]
pub struct Write {
    pub place: Value,
    pub operand: Operand,
}
