//! The flow check decides that a typed tree satisfies the flow rules, by computing the state of each local variable at each program point.
#![tactic(auto)]

pub use cause::{Cause, Change};
pub use check::{Diagnosis, diagnose, flow};

mod cause;
mod cause_expressions;
mod cause_state;
mod cause_statements;
mod check;
mod evaluation;
mod expressions;
mod numbers;
mod settled;
mod state;
mod statements;
mod stop;
mod table;
mod touched;
