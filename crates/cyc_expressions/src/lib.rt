//! Checks expressions by a recursive traversal. The result is the typed tree of an expression, exactly if the typing rules derive one.
#![tactic(auto)]

pub use walk::{check_expression, check_looked, check_place};

mod walk;
