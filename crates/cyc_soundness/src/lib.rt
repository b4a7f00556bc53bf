//! This crate proves that no run of a program that the typing rules and the flow rules accept accesses freed memory or goes wrong. The
//! crate defines the invariant of the states of such runs. The definitions are in `specs/`; the crate contains no running code.
#![tactic(auto)]

pub mod laws;
