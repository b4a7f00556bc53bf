//! The constants of the assembler.

use cyc_machine_model::constants::TEXT_BASE;

/// A branch is near its label if the label is at most this many words away.
pub const MAX_REACH: u32 = 32_767;

/// The offset of a branch that skips a jump: from the branch's delay slot to the word after the jump and the jump's delay slot.
pub const ROUND_OFFSET: u16 = 3;

/// The number of words of memory before the text range. Jump targets are counted in words from the beginning of memory.
pub const FIRST_INDEX: u32 = TEXT_BASE / 4;
