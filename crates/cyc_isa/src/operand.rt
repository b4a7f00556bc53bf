//! The operands of an instruction: registers, and numbers in fields with fewer bits than a Rust type.

ghost use Rattle.std.specs.Prelude.{◌<◌, ◌^◌};

/// A general register, by its number: 0 (which always reads 0) to 31.
#[derive(Clone, Copy, Debug, PartialEq, Eq)]
pub struct Register {
    pub number: u8,
    pub ghost in_range: { number < 32 },
}

/// The number of bits of a shift by a constant: 0 to 31, the five bits of the field `sa`.
#[derive(Clone, Copy, Debug, PartialEq, Eq)]
pub struct ShiftAmount {
    pub bits: u8,
    pub ghost in_range: { bits < 32 },
}

/// The 26-bit index field of a jump: the target's position, in words, within its region of 256 megabytes.
#[derive(Clone, Copy, Debug, PartialEq, Eq)]
pub struct JumpIndex {
    pub index: u32,
    pub ghost in_range: { index < 2 ^ 26 },
}

/// The 20 bits of a `syscall` or `break` instruction that the machine ignores and leaves to software.
#[derive(Clone, Copy, Debug, PartialEq, Eq)]
pub struct TrapCode {
    pub code: u32,
    pub ghost in_range: { code < 2 ^ 20 },
}
