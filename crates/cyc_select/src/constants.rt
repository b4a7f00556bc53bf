//! The constants of instruction selection: size limits, and the registers that it uses besides those with a fixed meaning for the
//! machine. All constants of this file are this project's own choice, except `ZERO`, which MIPS32 fixes.

use cyc_machine_model::constants::{DATA_BASE, STACK_POINTER};

/// The number of the register that always holds 0.
pub const ZERO: u8 = 0;

/// The number of the register that holds the first word that a function returns.
pub const FIRST_RESULT: u8 = 2;

/// The number of the register that holds the second word that a function returns.
pub const SECOND_RESULT: u8 = 3;

/// The number of the register that holds the third word that a function returns.
pub const THIRD_RESULT: u8 = 5;

/// The temporary register that receives an instruction's first operand, and its result.
pub const FIRST: u8 = 24;

/// The temporary register that receives an instruction's second operand.
pub const SECOND: u8 = 1;

/// The temporary register for a word that an instruction needs in addition to its first operand, its second operand and its result.
pub const THIRD: u8 = 3;

/// The register that holds the address of the current frame.
pub const FRAME: u8 = STACK_POINTER;

/// The register that holds the lowest frame address. If the current frame has the lowest frame address, no further call is allowed.
pub const LOWEST: u8 = 30;

/// The register that holds the address of the newest handler's record, or 0 if no handler is open.
pub const HANDLERS: u8 = 25;

/// The register that holds the number of open lexical regions.
pub const REGIONS: u8 = 27;

/// The binary logarithm of the size of a frame in bytes.
pub const FRAME_SHIFT: u8 = 10;

/// The register that holds the base address of the first globals, which never changes after the start code.
pub const GLOBALS: u8 = 28;

/// The base address of the first globals: signed 16-bit offsets from it reach the data range from its start on.
pub const GLOBALS_MIDDLE: u32 = DATA_BASE + 0x8000;

/// The number of globals that offsets from the base register reach.
pub const NEAR_GLOBALS: usize = 16_384;

/// The number of MIPS lines of the start code.
pub const START_LINES: usize = 6;

/// The greatest number of machine words that the start code takes.
pub const MAX_START_WORDS: usize = 7;
