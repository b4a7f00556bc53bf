//! The homes of slots: each slot is in memory, in a register, or in both.

/// The first register that slots may have.
pub const FIRST_REGISTER: u8 = 6;

/// The register number just after that of the last register that slots may have.
pub const REGISTERS_END: u8 = 24;

/// The first callee-saved register. A function that assigns callee-saved registers to slots saves those registers at its entry and restores
/// them when it returns. The registers before them are caller-saved.
pub const FIRST_PRESERVED: u8 = 17;

/// The maximal number of callee-saved registers that a function saves.
pub const MOST_SAVED: usize = (REGISTERS_END - FIRST_PRESERVED) as usize;

/// The maximal number of slots of a function that may have a register in addition to memory. Each such slot is reloaded after each call,
/// and the size of a call's code allows for this many slots.
pub const MOST_BOTH: usize = 6;

/// The location of a slot's word while the slot is live: memory, a register, or both.
#[derive(Clone, Copy)]
pub enum Home {
    /// In memory only.
    Memory,
    /// The slot's word is in memory and also in this register, which no other slot has.
    Both { register: u8 },
    /// The slot's word is only in this register.
    Register { register: u8 },
}
