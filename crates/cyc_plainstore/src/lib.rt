//! A heap store on an array of machine words, which grows by pages. `cyc_store` contains the laws of heap stores, the page table that
//! this store uses, and the lemmas about page tables.
#![tactic(auto)]

mod plain;

pub use plain::PlainStore;
