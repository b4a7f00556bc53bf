//! Limits the size of a program that is lowered.

/// The greatest number of functions that a program may have.
pub const MOST_FUNCTIONS: usize = 4096;
