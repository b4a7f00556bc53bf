//! A fact about slots and memory, known at a position of the code.
use cyc_plain::{BinaryOperator, Comparison, Operand};

/// The maximal length of a list of known facts. When a fact is added to a list of this length, the oldest fact is dropped.
pub(crate) const MOST_FACTS: usize = 24;

/// A fact is a property of the words in a function's slots and in memory.
#[derive(Clone, Copy)]
pub(crate) enum Fact {
    /// The slot contains the word that the operand denotes.
    Equal {
        slot: usize,
        operand: Operand,
    },
    /// The slot contains the result of the operator on these operands, which is defined.
    Computed {
        slot: usize,
        operator: BinaryOperator,
        left: Operand,
        right: Operand,
    },
    /// The comparison holds.
    Holds {
        comparison: Comparison,
        left: Operand,
        right: Operand,
    },
    /// Memory has the operand's word at an offset in bytes from an address.
    Held {
        address: Operand,
        offset: u32,
        value: Operand,
    },
}

/// The part of memory that an instruction may change.
#[derive(Clone, Copy)]
pub(crate) enum Touched {
    Nothing,
    /// The word in memory at an offset in bytes from an address.
    Word { address: Operand, offset: u32 },
    All,
}

/// The slots that an instruction writes: `count` slots from `first` on.
#[derive(Clone, Copy)]
pub(crate) struct Written {
    pub(crate) first: usize,
    pub(crate) count: usize,
}
