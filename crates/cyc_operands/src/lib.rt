//! Operands: the type of a typed expression, the typing rules' requirements on it, its conversion, and boxes for its tree node.
#![tactic(auto)]

pub use conversion::{as_int, convert, converted, is_number};
pub use found::{Found, type_of_side};
pub use given::{Given, type_of_place};
pub use made::{Made, boxed_initial};
pub use nodes::{boxed, heap_region, null_pointer, number};
pub use operands::{
    int_wanted, is_looking, peeked_local, span_inside, span_of, test_wanted, value_wanted,
};

mod conversion;
mod found;
mod given;
mod made;
mod nodes;
mod operands;
pub mod types;
