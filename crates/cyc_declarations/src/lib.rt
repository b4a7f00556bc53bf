//! The signatures and other declarations of a program: their types, their faults, and the results that the checks of function bodies
//! use. The crate also returns everything of a typed program except the bodies of its functions.
#![tactic(auto)]

pub use program::{Parts, parts_of};
pub use signatures::{members, signature_of};
pub use tree::collect;

mod declared;
mod distinct;
mod fields;
mod functions;
mod globals;
mod keys;
mod program;
mod signatures;
mod structs;
mod tree;
