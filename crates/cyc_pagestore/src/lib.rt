//! A page store on a pool of pages, which allocates no further memory after it is made.
//!
//! A page table over the pool (`table`) has the same meaning as a table in memory. The store above the table (`paged`) uses only the
//! table's calls, and its proofs are those of a store on a page table in memory.
#![tactic(auto)]

mod links;
mod paged;
mod serial;
mod step;
mod table;
mod usage;

pub use paged::PageStore;
