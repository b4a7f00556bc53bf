//! The typing rules' requirements that calls and new structs place on the passed values, and their tree
//! nodes, built after the values are checked.
#![tactic(auto)]

pub use calls::called;
pub use fields::fields_made;
pub use passing::push_value;

mod at_call;
mod calls;
mod fields;
mod fitting;
mod instance;
mod passing;
mod plain;
