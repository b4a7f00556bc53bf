//! This crate defines the store of a running program: its content, the effect of its services as a relation, and the trait that
//! each store implements.
//!
//! The definitions are in `specs/`: the content of a store (`State`), its services (`Services`), and the invariant of every store
//! (`Soundness`). [`laws`] contains the laws of these definitions.
#![tactic(auto)]

mod answer;
mod change;
pub mod laws;
mod ledger;
mod numbers;
mod range;
mod row;
pub mod runs;
mod store;

pub use answer::{BadHandle, BadMark, No, NotABlock};
pub use change::Change;
pub use ledger::Ledger;
pub use numbers::{address_at, class_of, is_size, number_at, size_of};
pub use range::{HEAP, LEAST_PAGES, MOST_BLOCK_WORDS, MOST_PAGES, PAGE_WORDS, STORE_BASE, UNIQUE};
pub use row::{BLANK, ClassSlots, NONE, PageTable, Role, Row};
pub use store::Store;
