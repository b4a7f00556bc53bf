//! The instructions of the machine, grouped by format.

use crate::operand::{JumpIndex, Register, ShiftAmount, TrapCode};

/// An operation on a register and a 16-bit immediate.
#[derive(Clone, Copy, Debug, PartialEq, Eq)]
pub enum ImmediateOp {
    AddUnsigned,
    SetLess,
    SetLessUnsigned,
    And,
    Or,
    Xor,
}

/// A load or a store of a word or a byte. `LoadByte` zero-extends the byte, and `StoreByte` stores the low byte.
#[derive(Clone, Copy, Debug, PartialEq, Eq)]
pub enum MemoryOp {
    LoadWord,
    StoreWord,
    LoadByte,
    StoreByte,
}

/// A branch on two registers.
#[derive(Clone, Copy, Debug, PartialEq, Eq)]
pub enum BranchOp {
    Equal,
    NotEqual,
}

/// A branch that compares one register with zero.
#[derive(Clone, Copy, Debug, PartialEq, Eq)]
pub enum BranchZeroOp {
    LessOrEqual,
    Greater,
    Less,
    GreaterOrEqual,
}

/// A jump to a target that the instruction itself contains, without a return address or with the return address stored in register 31.
#[derive(Clone, Copy, Debug, PartialEq, Eq)]
pub enum JumpOp {
    Plain,
    AndLink,
}

/// The kind of a shift: `RightLogical` shifts zeros in, `RightArithmetic` copies of the sign bit.
#[derive(Clone, Copy, Debug, PartialEq, Eq)]
pub enum ShiftOp {
    Left,
    RightLogical,
    RightArithmetic,
}

/// An instruction that transfers control to the system: a system call or a breakpoint.
#[derive(Clone, Copy, Debug, PartialEq, Eq)]
pub enum ExceptionOp {
    Syscall,
    Break,
}

/// The register that a move instruction reads after a multiplication or a division: HI or LO.
#[derive(Clone, Copy, Debug, PartialEq, Eq)]
pub enum MoveFromOp {
    High,
    Low,
}

/// A signed operation whose two result words are written to the registers HI and LO.
#[derive(Clone, Copy, Debug, PartialEq, Eq)]
pub enum MultiplyDivideOp {
    Multiply,
    Divide,
}

/// An operation on two registers whose result is written to a third.
#[derive(Clone, Copy, Debug, PartialEq, Eq)]
pub enum ArithmeticOp {
    AddUnsigned,
    SubtractUnsigned,
    And,
    Or,
    Xor,
    Nor,
    SetLess,
    SetLessUnsigned,
}

/// An instruction. An immediate, or the offset of a load, store or branch, is the 16 bits of its field. The operation determines whether
/// the 16 bits are signed.
#[derive(Clone, Copy, Debug, PartialEq, Eq)]
pub enum Instr {
    Immediate {
        op: ImmediateOp,
        target: Register,
        source: Register,
        immediate: u16,
    },
    LoadUpper {
        target: Register,
        immediate: u16,
    },
    Memory {
        op: MemoryOp,
        target: Register,
        base: Register,
        offset: u16,
    },
    Branch {
        op: BranchOp,
        left: Register,
        right: Register,
        offset: u16,
    },
    BranchZero {
        op: BranchZeroOp,
        source: Register,
        offset: u16,
    },
    Jump {
        op: JumpOp,
        index: JumpIndex,
    },
    Shift {
        op: ShiftOp,
        destination: Register,
        source: Register,
        amount: ShiftAmount,
    },
    ShiftVariable {
        op: ShiftOp,
        destination: Register,
        source: Register,
        by: Register,
    },
    JumpRegister {
        source: Register,
    },
    JumpRegisterLink {
        destination: Register,
        source: Register,
    },
    Exception {
        op: ExceptionOp,
        code: TrapCode,
    },
    MoveFrom {
        op: MoveFromOp,
        destination: Register,
    },
    MultiplyDivide {
        op: MultiplyDivideOp,
        left: Register,
        right: Register,
    },
    Arithmetic {
        op: ArithmeticOp,
        destination: Register,
        left: Register,
        right: Register,
    },
}
