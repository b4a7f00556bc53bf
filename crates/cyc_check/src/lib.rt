//! The checker returns the typed tree of an abstract syntax tree, exactly if the typing rules derive one.
#![tactic(auto)]

pub use at_fault::{place_type, refusal, scope_at_fault, value_type};
pub use tree::check;

mod at_fault;
mod declared_types;
mod functions;
mod simple_statements;
mod statements;
mod tree;
