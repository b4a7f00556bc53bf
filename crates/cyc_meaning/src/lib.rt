//! The meaning of source programs: the behavior of a typed tree when it runs, and the numbers of pages and of active calls that
//! it needs. The definitions are in `specs/`; the crate contains no running code.
#![tactic(auto)]

pub mod laws;
