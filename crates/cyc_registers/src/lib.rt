//! Register allocation: assigns a function's slots to registers, by liveness and spill costs.
#![tactic(auto)]

mod allocation;
mod choice;
mod fills;
mod home;
mod idle;
mod interference;
mod liveness;
mod masks;
mod moves;
mod numbering;
mod sharing;
mod spill_costs;
mod uses;

pub use allocation::{Allocation, allocate};
pub use home::{FIRST_PRESERVED, FIRST_REGISTER, Home, MOST_BOTH, MOST_SAVED, REGISTERS_END};
pub use moves::is_crossing;
