//! This crate explains faults in names, types or regions, in addition to the fault code: the violated rule, with the names and types
//! involved, and how to repair the program. Explanations are computed only for a rejected program, so they cost an accepted program
//! nothing. The process exits after a fault, so nothing allocated for the explanation is dropped (`ManuallyDrop`), since every drop
//! would have to be proved.
#![tactic(auto)]

pub use cyc_explain_texts::Explanation;
pub use explanation::explain;

mod bodies;
mod calls;
mod explanation;
mod expressions;
mod statements;
mod types;
mod values;
