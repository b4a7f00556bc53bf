//! This file defines the results of a store that refuses a call.

/// The reason why a region was not opened, or why a block was not allocated. If several reasons hold, then the first
/// one in the order of this type's variants is returned.
#[derive(Clone, Copy, Debug, PartialEq, Eq)]
pub enum No {
    /// The handle names no open region.
    BadHandle,
    /// The size is not between 1 and 1,000 words.
    BadSize,
    /// The call would need more pages than the store has.
    Full,
    /// An allocation by the store failed.
    Memory,
}

/// Fewer lexical regions are open than the argument `mark` states.
#[derive(Clone, Copy, Debug, PartialEq, Eq)]
pub struct BadMark;

/// The handle names no open dynamic region.
#[derive(Clone, Copy, Debug, PartialEq, Eq)]
pub struct BadHandle;

/// The address is not the first address of a live unique block.
#[derive(Clone, Copy, Debug, PartialEq, Eq)]
pub struct NotABlock;
