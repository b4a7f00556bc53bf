//! This file defines the effect of a call on the blocks of a store.

/// An event that changes the regions or blocks of a store, such as the opening of a region or the allocation of a block.
#[derive(Clone, Copy)]
pub enum Change {
    /// A lexical region with this handle was opened.
    OpenedLexical(u32),
    /// A dynamic region with this handle was opened.
    OpenedDynamic(u32),
    /// The region with this handle was closed.
    Closed(u32),
    /// A block with this address and number of words was allocated in the region with this handle.
    Made(u32, u32, u32),
    /// A page was cut into slots of this size class.
    Stocked(u32),
    /// A unique block with this address and number of words was allocated.
    MadeUnique(u32, u32),
    /// The unique block at this address was freed.
    Freed(u32),
}
