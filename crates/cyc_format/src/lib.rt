//! Formats a text in one style; its tokens and comments stay unchanged.
#![tactic(auto)]

pub use formatter::format;

mod breaks;
mod comparison;
mod formatter;
mod frames;
mod gap;
mod layout;
mod notes;
mod roles;
mod sheet;
mod spaces;
