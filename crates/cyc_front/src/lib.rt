//! The front end as one function: it translates a source text to a typed tree, or rejects the text with a fault.
#![tactic(auto)]

mod front;
pub mod laws;

pub use front::{Phases, accept, run_phases};
