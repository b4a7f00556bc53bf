//! Value propagation drops computations, tests and moves whose result is already known.
#![tactic(auto)]

mod candidates;
mod changes;
mod effects;
mod entries;
mod entry;
mod fact;
mod facts;
mod folding;
mod jumps;
mod known;
mod outcomes;
mod pins;
mod replacement;
mod room;
mod simplification;
mod tail;
mod walk;

pub use simplification::simplify;
