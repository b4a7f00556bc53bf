//! This file defines the exits from a statement: the targets of `break` and `continue`, and what must be closed on the way out.

/// The exception handlers and lexical regions that are open at a statement, but were not open at the start of the loop or function. The
/// open handlers and regions are given by the first slot of the outermost handler's record and the slot with the region count from before
/// the outermost lexical region.
#[derive(Clone, Copy)]
pub struct Opened {
    pub handler: Option<usize>,
    pub mark: Option<usize>,
}

/// The exits from a statement: the targets of inner statements that leave a loop or the function, and what must be closed then.
#[derive(Clone, Copy)]
pub struct Exits {
    /// The code position at which the enclosing loop starts, if there is one.
    pub head: usize,
    /// The code position of the jump to the loop's end.
    pub leaving: usize,
    /// The exception handlers and lexical regions opened inside the enclosing loop.
    pub in_loop: Opened,
    /// The exception handlers and lexical regions opened inside the enclosing function.
    pub in_function: Opened,
}
