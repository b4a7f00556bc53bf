//! Inlining of small functions that call no function, and extra slots for the values of repeated expressions.
#![tactic(auto)]

mod caller;
mod choice;
mod duplicating;
mod emission;
mod emptying;
mod expressions;
mod hoisting;
mod inlining;
mod leaf;
mod limits;
mod making;
mod moving;
mod naming;
mod needing;
mod origin;
mod replacing;
mod shapes;
mod site;
mod sizes;
mod tables;
mod writing;

pub use expressions::name_expressions;
pub use inlining::{Inlined, inline};
pub use leaf::line_of;
pub use origin::Origin;
pub use replacing::Opened;
