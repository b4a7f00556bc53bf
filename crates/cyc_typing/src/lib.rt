//! The requirements of each form of expression, and the typed node that results after the expression's subexpressions are checked.
#![tactic(auto)]

pub use objects::{Placed, array_made, as_unique, by_handle, created, on_heap, plain_made};
pub use operators::{Left, binary, join};
pub use places::{Reached, addressed, as_place, assigned, indexed, loaded, pointed, selected};
pub use unary::{computed, freed, number_of_elements};
pub use variables::{key_freed, looked, place_meant, read};

mod comparisons;
mod objects;
mod operators;
mod places;
mod unary;
mod variables;
