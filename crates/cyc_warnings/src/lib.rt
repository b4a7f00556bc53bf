//! This crate finds warnings: places in an accepted text that most likely do not mean what their author intended. Warnings are found on
//! the syntax tree with the types of its declarations. No phase of the compiler depends on warnings, and they change no result.
#![tactic(auto)]

pub use finding::find_warnings;
pub use warning::{Found, MOST_WARNINGS, Warning, text_of};

mod comparisons;
mod constants;
mod expressions;
mod finder;
mod finding;
mod hidden;
mod intervals;
mod known;
mod layout;
mod locals;
mod loops;
mod places;
mod sameness;
mod shapes;
mod statements;
mod warning;
