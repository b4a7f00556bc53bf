//! A source program, run step by step as the definition says.
#![tactic(auto)]

pub use course::Course;
pub use entry::{Entry, Environment, Focus, Over, Phase, Progress, Slot};
pub use limits::Limits;
pub use machine::Machine;
pub use objects::{Cell, Object, Owner, Region, Sort};
pub use run::{Report, Stop, run_source};
pub use value::{Operand, Part, Value, Write};
pub use world::World;

mod allocation;
mod calls;
mod cells;
mod changes;
mod course;
mod entry;
mod exceptions;
mod found;
mod leave;
mod limits;
mod machine;
mod objects;
mod operators;
mod parts;
mod places;
mod pointers;
mod regions;
mod run;
mod sizes;
mod start;
mod steps;
mod supply;
mod swaps;
mod value;
mod world;
