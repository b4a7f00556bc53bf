//! Instruction selection translates the plain program (three-address code) to labelled machine code.
#![tactic(auto)]

mod asking;
mod bodies;
mod calling;
mod code;
pub mod constants;
mod counting;
mod emitter;
mod globals;
mod handling;
mod hoisting;
mod instructions;
mod memory;
mod numbers;
mod operands;
mod operators;
mod plan;
mod selection;
mod tables;

pub use code::{Code, Condition, Line};
pub use selection::{lines_of, select};
pub use tables::FunctionLines;
