//! Upper bounds for every run of a program, computed from its typed tree: active calls, steps and pages.
#![tactic(auto)]

pub use bound::{CallBound, MOST_CALLS, bound_of_calls};
pub use costs::{Measure, Site, TOO_MANY};
pub use loops::{loop_of_pages, loop_of_steps};
pub use pages::{PageBound, pages_of};
pub use steps::{StepBound, steps_of};

mod at_once;
mod bound;
mod callees;
mod costs;
mod function_costs;
pub mod laws;
mod loops;
mod pages;
mod reached;
mod steps;
mod tree_costs;
