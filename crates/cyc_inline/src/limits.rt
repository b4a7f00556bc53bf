//! The limits of inlining: the greatest code sizes, and the most expressions hoisted before one loop.

/// The maximum number of instructions of a function that is inlined.
pub(crate) const MOST_LEAF_CODE: usize = 32;

/// The maximum number of instructions by which inlining may extend a function.
pub(crate) const MOST_GROWTH: usize = 4000;

/// The maximum number of expressions that are hoisted before one loop.
pub(crate) const MOST_HOISTED: usize = 8;
