//! The texts of explanations of faults, the teller that fills in and writes these texts, and the requirements that depend on no
//! expression's type. No text in this crate depends on the order in which the checker visits a program.
#![tactic(auto)]

pub use explanation::Explanation;

pub mod conversions;
pub mod declarations;
mod explanation;
pub mod forms;
pub mod homes;
pub mod lexicon;
pub mod messages;
pub mod names;
pub mod objects;
pub mod teller;
pub mod wanted;
pub mod words;
pub mod written;
