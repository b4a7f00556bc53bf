//! The constants of the machine: its memory map, the numbers of its system calls, its special registers, and the limits of a run. All
//! constants of this file are this project's own choice, except `RETURN_ADDRESS`, which MIPS32 fixes.

/// The first address of the text range.
pub const TEXT_BASE: u32 = 0x40_0000;

/// The first address past the text range.
pub const TEXT_END: u32 = 0x200_0000;

/// The number of words in the text range.
pub const TEXT_WORDS: usize = ((TEXT_END - TEXT_BASE) / 4) as usize;

/// The first address of the data range.
pub const DATA_BASE: u32 = 0x1000_0000;

/// The first address past the data range.
pub const DATA_END: u32 = 0x1040_0000;

/// The number of words in the data range.
pub const DATA_WORDS: usize = ((DATA_END - DATA_BASE) / 4) as usize;

/// The first address past the stack.
pub const STACK_END: u32 = 0x7fff_f000;

/// The number of words that the stack has for each allowed call.
pub const WORDS_PER_CALL: usize = 256;

/// The smallest allowed number of pages of the store.
pub const MIN_PAGES: u32 = 3;

/// The greatest allowed number of pages of the store.
pub const MAX_PAGES: u32 = 65_536;

/// The lowest allowed limit of active calls.
pub const MIN_CALLS: u32 = 1;

/// The highest allowed limit of active calls.
pub const MAX_CALLS: u32 = 4096;

/// The number of the system call that reads a byte of the input.
pub const GET_BYTE: u32 = 1;

/// The number of the system call that prints a byte.
pub const PUT_BYTE: u32 = 2;

/// The number of the system call that ends a run because the program has returned.
pub const END_RETURNED: u32 = 3;

/// The number of the system call that ends a run because no handler has caught an exception.
pub const END_UNCAUGHT: u32 = 4;

/// The number of the system call that opens a lexical region. The system call that opens a lexical region returns
/// the region's handle and the number of lexical regions that were open before.
pub const OPEN_LEXICAL: u32 = 5;

/// The number of the system call that closes the newest lexical regions until only the requested number is open.
pub const CLOSE_LEXICAL: u32 = 6;

/// The number of the system call that opens a dynamic region and returns its handle.
pub const OPEN_DYNAMIC: u32 = 7;

/// The number of the system call that closes a dynamic region.
pub const CLOSE_DYNAMIC: u32 = 8;

/// The number of the system call that allocates a block of a requested number of words in a region and returns the block's address.
pub const ALLOCATE: u32 = 9;

/// The number of the system call that frees a block to which the program has a unique pointer.
pub const FREE: u32 = 10;

/// The number of the system call that ends a run because the stack has no space for another call.
pub const END_FULL: u32 = 11;

/// The register that holds the number of the requested system call, and later the first word of its result.
pub const SERVICE: u8 = 2;

/// The register that holds the second word of a system call's result.
pub const SECOND_ANSWER: u8 = 3;

/// The register that holds the first argument of a system call. At the start of a run the register of the
/// first argument holds the limit of active calls.
pub const ARGUMENT: u8 = 4;

/// The register that holds the second argument of a system call.
pub const SECOND_ARGUMENT: u8 = 5;

/// The register that holds the lowest used address of the stack. At the start of a run the register of the lowest
/// used stack address holds the end of the stack.
pub const STACK_POINTER: u8 = 29;

/// The register in which the `jal` instruction leaves the return address.
pub const RETURN_ADDRESS: u8 = 31;
