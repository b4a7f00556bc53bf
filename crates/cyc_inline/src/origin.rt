//! For the instructions of an inlined program, the source instructions from which they are made.

/// An instruction of the source program, from which one or more instructions of the inlined program are made.
#[derive(Clone, Copy, Debug, PartialEq, Eq)]
pub struct Origin {
    /// The index of the function that contains this source instruction.
    pub function: usize,
    /// The index of this source instruction in the code of its function.
    pub index: usize,
}
