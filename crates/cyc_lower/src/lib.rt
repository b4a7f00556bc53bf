//! Lowers a typed tree to a plain program (three-address code).
#![tactic(auto)]

pub use limits::MOST_FUNCTIONS;
pub use marks::{Mark, Marks, marks_of};
pub use program::lower;

mod breaks;
mod calls;
mod chains;
mod checks;
mod conditions;
mod conversions;
mod emitter;
mod exits;
mod expressions;
mod functions;
mod globals;
mod handlers;
mod limits;
mod locals;
mod loops;
mod marks;
mod objects;
mod operands;
mod operators;
mod pointers;
mod program;
mod regions;
mod starts;
mod statements;
mod swaps;
