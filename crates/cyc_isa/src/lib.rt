//! The instruction set: instructions, the words that encode them, and their text.
#![tactic(auto)]

mod decoding;
mod encoding;
pub mod instr;
pub mod laws;
pub mod operand;
mod table;
mod text;
mod uses;

pub use decoding::decode;
pub use encoding::encode;
pub use instr::{
    ArithmeticOp, BranchOp, BranchZeroOp, ExceptionOp, ImmediateOp, Instr, JumpOp, MemoryOp,
    MoveFromOp, MultiplyDivideOp, ShiftOp,
};
pub use operand::{JumpIndex, Register, ShiftAmount, TrapCode};
pub use text::write_text;
pub use uses::{reads, writes};
