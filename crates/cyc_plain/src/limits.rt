//! The size limits of a plain program.

/// The number of frame words that `layout` may use in addition to the slots, for example for the return address.
pub const LAYOUT_WORDS: usize = 8;

/// The most words of a stack frame: the machine's stack has this many words for each call.
pub const MOST_FRAME_WORDS: usize = 256;

/// The most words of a value: a fat pointer has three words.
pub const GREATEST_VALUE: usize = 3;

/// The number of words of an exception handler's record.
pub const RECORD_WORDS: usize = 4;

/// The address of the first global: the start of the machine's data range.
pub const GLOBALS_BASE: u32 = 0x1000_0000;

/// The most words of globals that can be addressed: 4 megabytes.
pub const MOST_GLOBALS: usize = 1_048_576;

/// The most words of machine code of all functions together, as `size` counts them: 120 for each token that a text may have.
pub const MOST_SIZE: usize = 7_200_000;
