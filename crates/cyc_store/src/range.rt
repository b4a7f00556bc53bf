//! The addresses and the sizes of a store, which are this project's own choice.

/// The address of the first word of the store.
pub const STORE_BASE: u32 = 0x2000_0000;

/// The number of words in a page.
pub const PAGE_WORDS: u32 = 1024;

/// The smallest number of pages of a store.
pub const LEAST_PAGES: u32 = 3;

/// The largest number of pages of a store, which is 256 MiB.
pub const MOST_PAGES: u32 = 65536;

/// The largest number of words of a requested block.
pub const MOST_BLOCK_WORDS: u32 = 1000;

/// The handle of the heap, a region that is open from the start and is never closed.
pub const HEAP: u32 = 1;

/// The handle of the unique region, in which each block is freed separately.
pub const UNIQUE: u32 = 2;
