//! This crate offers the compiler as functions: a text is compiled to an image, with the source positions of its machine words if
//! wanted, or the program's needs are reported.
#![tactic(auto)]

mod bounded;
mod compiler;
mod image;
pub mod laws;
mod needs;
mod places;

pub use bounded::{Bounded, Bounds};
pub use compiler::{Compilation, compile, compile_with, compile_with_tokens};
pub use needs::{bounds, bounds_with_tokens};
pub use places::{Placed, compile_with_places};
