//! This crate states the correspondence between the source's objects and the heap store's words, on which the lowering of heap programs is
//! based. The definitions are in `specs/`: the tables of a run (`Tables`), the words of values (`Words`), and the relation of a source's
//! heap state and a heap store (`Related`). [`laws`] contains the laws of these definitions. The crate contains no running code.
#![tactic(auto)]

pub mod laws;
