//! Definitions of the MIPS32 machine: its state, a step, a run, and their laws. The code of this crate consists of the machine's constants
//! and the events of a step.
#![tactic(auto)]

pub use event::{Cause, End, Event, Exchange, Stretch};
pub use phase::Phase;

pub mod constants;
mod event;
pub mod laws;
mod phase;
