//! The plain program is the intermediate representation between source and machine code. A plain program has functions with numbered slots
//! of words, three-address instructions, and explicit branches for all checks. The meaning of a plain program is defined in `specs/`.
#![tactic(auto)]

pub mod instruction;
pub mod laws;
mod limits;
pub mod program;

pub use instruction::{BinaryOperator, Comparison, Instruction, Operand, Request, UnaryOperator};
pub use limits::{
    GLOBALS_BASE, GREATEST_VALUE, LAYOUT_WORDS, MOST_FRAME_WORDS, MOST_GLOBALS, MOST_SIZE,
    RECORD_WORDS,
};
pub use program::{Function, Parts, Plain, well_formed};
