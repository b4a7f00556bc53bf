//! This crate defines the plain program as a function of the typed tree, and proves that it follows the source. The definitions are in
//! `specs/`; the only code is the structs that the definitions use.
#![tactic(auto)]

pub use condition::Condition;
pub use exits::{Exits, Opened};

mod condition;
mod exits;
pub mod laws;
